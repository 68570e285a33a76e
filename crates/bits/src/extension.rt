// 32 bits in a 64-bit word.
ghost use Rattle.std.specs.Prelude.{◌≡◌};
ghost use Rattle.bits.specs.Extension.{low32_of, sign_extended, zero_extended};

// The low 32 bits.
pub fn low32(x: u64) -> u32
    ensures { result ≡ low32_of x }
{
    (x % 0x1_0000_0000) as u32
}

// 32 bits as a signed number, extended to 64: bit 31 is turned, and taken away again, which compiles to one instruction.
pub fn sign_extend(x: u32) -> u64
    ensures { result ≡ sign_extended x }
{
    (x as u64 ^ 0x8000_0000).wrapping_sub(0x8000_0000)
}

// 32 bits as an unsigned number, extended to 64.
pub fn zero_extend(x: u32) -> u64
    ensures { result ≡ zero_extended x }
{
    x as u64
}
