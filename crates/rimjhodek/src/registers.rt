// The register file as 38 words: 32 registers, now, the epoch's value and tick, the last-asked Count, EC, the latch.
ghost use Rattle.std.specs.Prelude.{◌≡◌, ◌%◌, false, slice_index, slice_set};
ghost use Rattle.bits.specs.Extension.{low32_of};
ghost use Rattle.bits.specs.Mask.{merged};
ghost use Rattle.cop0.specs.Registers.{named, unused, wide, write_mask};
ghost use Rattle.cop0.specs.Record.{fresh};
ghost use Rattle.cop0.specs.Clock.{count_at, count_of, asked};
ghost use Rattle.cop0.specs.File.{besides, read_at, write_of, set_hardware_of};
ghost use Rattle.cop0.specs.Access.{mfc0_of, dmfc0_of, moved32, mtc0_of, dmtc0_of, from_rs_of};
ghost use Rattle.rimjhodek.specs.Registers.{cop0_in, put_in, cop0_words, is_special, special_of, is_watched, form_of};

use crate::answers::Number;
use crate::register::Register;
use cop0::{Cop0, Refusal};

impl Register {
    // Does it read something else than its own bits under a mask? One test on the common way.
    #[tactic(auto, using(crate::proofs::Reading::special_bits))]
    fn is_special(self) -> bool
        ensures { result ≡ is_special self.number }
    {
        bits::field(0x83E1_0280, self.number, self.number) == 1
    }

    // Does a write do anything besides?
    #[tactic(auto, using(crate::proofs::Writing::watched_bits))]
    fn is_watched(self) -> bool
        ensures { result ≡ is_watched self.number }
    {
        bits::field(0xA40, self.number, self.number) == 1
    }

    #[tactic(auto, using(cop0::proofs::Numbers::wide_bits))]
    fn is_wide(self) -> bool
        ensures { result ≡ wide self.number }
    {
        bits::field(0x4010_451C, self.number, self.number) == 1
    }
}

// The register file as at cold reset. Whatever was lent is overwritten whole.
#[tactic(auto, unfolding(crate::specs::Registers::put_in, cop0::specs::Record::fresh))]
#[unsafe(no_mangle)]
pub extern "C" fn rimjhodek_cop0_new(cop0: &mut [u64; 38])
    ensures { cop0.new ≡ cop0_words fresh }
{
    let new = Cop0::new();
    let regs = new.regs;
    let mut words = [0u64; 38];
    // Random, Status, PRId and Config: all others are 0.
    words[1] = regs[1];
    words[12] = regs[12];
    words[15] = regs[15];
    words[16] = regs[16];
    words[36] = new.ec as u64;
    *cop0 = words;
}

// `DMFC0 rt, rd`.
#[tactic(auto, using(crate::proofs::Reading::read_special))]
#[unsafe(no_mangle)]
pub extern "C" fn rimjhodek_dmfc0(cop0: &[u64; 38], n: u32) -> u64
    ensures { result ≡ dmfc0_of (cop0_in cop0.now) n }
{
    let rd = Register::of(n);
    if rd.is_special() {
        return special(cop0, rd);
    }
    read(cop0, rd)
}

// `MFC0 rt, rd`.
#[tactic(auto, using(crate::proofs::Reading::read_special))]
#[unsafe(no_mangle)]
pub extern "C" fn rimjhodek_mfc0(cop0: &[u64; 38], n: u32) -> u64
    ensures { result ≡ mfc0_of (cop0_in cop0.now) n }
{
    let rd = Register::of(n);
    if rd.is_special() {
        return bits::sign_extend(bits::low32(special(cop0, rd)));
    }
    bits::sign_extend(bits::low32(read(cop0, rd)))
}

// Register `k`, of those that read nothing but their own bits under a mask.
#[tactic(auto, using(crate::proofs::Reading::read_plain))]
pub(crate) fn read(cop0: &[u64; 38], k: Register) -> u64
    requires { is_special k.number ≡ false }
    ensures { result ≡ read_at (cop0_in cop0.now) k.number }
{
    let i = k.number as usize;
    cop0[i] & k.arch_mask()
}

// Count, Config, and the unused ones, which read the latch.
#[tactic(auto, unfolding(crate::specs::Registers::special_of, cop0::specs::Registers::arch_mask))]
fn special(cop0: &[u64; 38], k: Register) -> u64
    ensures { result ≡ special_of (cop0_in cop0.now) k.number }
{
    match k.number {
        9 => count(cop0),
        16 => cop0[16] & 0x0F00_800F | cop0[36] % 256 * 0x1000_0000 | 0x0006_6460,
        _ => cop0[37],
    }
}

pub(crate) fn count(cop0: &[u64; 38]) -> u64
    ensures { result ≡ count_of (cop0_in cop0.now) }
{
    count_at(cop0[32], cop0[33], cop0[34])
}

// On numbers, whose types say that they are words: of an element of a lent array nothing is told.
fn count_at(position: u64, value: u64, tick: u64) -> u64
    ensures { result ≡ count_at position (low32_of value) tick }
{
    let elapsed = position.wrapping_sub(tick);
    let low = bits::low32(value).wrapping_add(bits::low32(elapsed));
    low as u64
}

// `DMTC0 rd, rt`.
#[tactic(auto, using(crate::proofs::Writing::moved))]
#[unsafe(no_mangle)]
pub extern "C" fn rimjhodek_dmtc0(cop0: &mut [u64; 38], n: u32, value: u64)
    ensures { cop0.new ≡ put_in cop0.old (dmtc0_of (cop0_in cop0.old) n value) }
{
    let rd = Register::of(n);
    cop0[37] = value;
    store(cop0, rd, value);
    settle(cop0, rd, value);
}

// `MTC0 rd, rt`.
#[tactic(auto, using(crate::proofs::Writing::moved), unfolding(cop0::specs::Access::moved32))]
#[unsafe(no_mangle)]
pub extern "C" fn rimjhodek_mtc0(cop0: &mut [u64; 38], n: u32, value: u64)
    ensures { cop0.new ≡ put_in cop0.old (mtc0_of (cop0_in cop0.old) n value) }
{
    let rd = Register::of(n);
    let moved = moved_32(rd, value);
    cop0[37] = moved;
    store(cop0, rd, moved);
    settle(cop0, rd, moved);
}

// The bits under the register's write mask, and for three registers more. MTC0 and DMTC0 take the same two steps themselves: a
// function of both is too large to be compiled into them.
#[tactic(auto, using(crate::proofs::Writing::written))]
#[unsafe(no_mangle)]
pub extern "C" fn rimjhodek_write(cop0: &mut [u64; 38], n: u32, value: u64)
    ensures { cop0.new ≡ put_in cop0.old (write_of (cop0_in cop0.old) n value) }
{
    let k = Register::of(n);
    store(cop0, k, value);
    settle(cop0, k, value);
}

// The bits under the register's write mask.
fn store(cop0: &mut [u64; 38], k: Register, value: u64)
    ensures { cop0.new ≡ slice_set cop0.old k.number (merged (write_mask k.number) value (slice_index cop0.old k.number)) }
{
    let i = k.number as usize;
    cop0[i] = bits::merge(k.write_mask(), value, cop0[i]);
}

// A write past the write mask, for what the hardware owns.
#[tactic(auto, unfolding(cop0::specs::File::set_hardware_of))]
#[unsafe(no_mangle)]
pub extern "C" fn rimjhodek_set_hardware(cop0: &mut [u64; 38], n: u32, value: u64)
    ensures { cop0.new ≡ put_in cop0.old (set_hardware_of (cop0_in cop0.old) n value) }
{
    set_hardware(cop0, Register::of(n), value);
}

// The same of a register.
#[tactic(auto, using(crate::proofs::Meaning::stored), unfolding(cop0::specs::File::set_hardware_of))]
pub(crate) fn set_hardware(cop0: &mut [u64; 38], k: Register, value: u64)
    ensures { cop0.new ≡ put_in cop0.old (set_hardware_of (cop0_in cop0.old) k.number value) }
{
    let i = k.number as usize;
    cop0[i] = value & k.arch_mask();
}

// What a write to Count, Compare or Wired does besides.
#[tactic(auto, using(crate::proofs::Writing::to_count, crate::proofs::Writing::to_compare, crate::proofs::Writing::to_wired, crate::proofs::Writing::to_other))]
fn settle(cop0: &mut [u64; 38], k: Register, value: u64)
    ensures { cop0.new ≡ put_in cop0.old (besides k.number value (cop0_in cop0.old)) }
{
    if !k.is_watched() {
        return;
    }
    match k.number {
        9 => {
            cop0[33] = bits::with_field(cop0[33], 31, 0, value);
            cop0[34] = cop0[32];
            ask(cop0);
        }
        11 => {
            cop0[13] = bits::with_field(cop0[13], 15, 15, 0);
            ask(cop0);
        }
        _ => cop0[1] = 31,
    }
}

// The last-asked mark moves to the present Count.
#[tactic(auto, using(crate::proofs::Writing::is_asked))]
pub(crate) fn ask(cop0: &mut [u64; 38])
    ensures { cop0.new ≡ put_in cop0.old (asked (cop0_in cop0.old)) }
{
    let count = count(cop0);
    cop0[35] = bits::with_field(cop0[35], 31, 0, count);
}

// What MTC0 writes of a value: its low half, sign-extended for a register of 64 bits.
#[tactic(auto, unfolding(cop0::specs::Access::moved32))]
fn moved_32(k: Register, value: u64) -> u64
    ensures { result ≡ moved32 k.number value }
{
    let low = bits::low32(value);
    if k.is_wide() {
        return bits::sign_extend(low);
    }
    bits::zero_extend(low)
}

// Is register `n` one of the unused ones?
#[unsafe(no_mangle)]
pub extern "C" fn rimjhodek_is_unused(n: u32) -> bool
    ensures { result ≡ unused (n % 32) }
{
    Cop0::is_unused((n % 32) as u8)
}

// Is register `n` 64 bits wide?
#[unsafe(no_mangle)]
pub extern "C" fn rimjhodek_is_wide(n: u32) -> bool
    ensures { result ≡ wide (n % 32) }
{
    Register::of(n).is_wide()
}

// The access form that an rs field names: 0 MFC0, 1 DMFC0, 2 MTC0, 3 DMTC0.
#[tactic(auto, unfolding(crate::specs::Registers::form_of, cop0::specs::Access::from_rs_of, cop0::specs::Registers::among))]
#[unsafe(no_mangle)]
pub extern "C" fn rimjhodek_from_rs(rs: u32) -> Number
    ensures { result ≡ form_of (from_rs_of rs) }
{
    match rs {
        0 => Number::of(0),
        1 => Number::of(1),
        4 => Number::of(2),
        5 => Number::of(3),
        _ => Number {
            refused: Refusal::Form.number(),
            ..Number::default()
        },
    }
}

// The numbers of the registers that have a name.
#[unsafe(no_mangle)]
pub extern "C" fn rimjhodek_numbers(out: &mut [u8; 25])
    ensures { out.new ≡ named }
{
    let numbers = Cop0::numbers();
    *out = numbers;
}
