// What lent words mean. The register file is 38: the 32 registers as stored, then the clock's position, Count at its epoch, the
// epoch's position, the last-asked Count, EC and the latch.
ghost use Rattle.std.specs.Prelude.{◌≡◌};
ghost use Rattle.rimjhodek.specs.Registers.{cop0_in};

use cop0::Cop0;

// The record of 38 words. Bits that a field does not have mean nothing. Nothing is copied where it is taken apart again.
pub(crate) fn cop0_in(words: [u64; 38]) -> Cop0
    ensures { result ≡ cop0_in words }
{
    // No `copy_from_slice`: it asks for the array's length, which is told of lent arrays alone.
    let mut regs = [0u64; 32];
    for i in 0..32 {
        regs[i] = words[i];
    }
    Cop0 {
        regs,
        now: words[32],
        count_epoch_value: bits::low32(words[33]),
        count_epoch_tick: words[34],
        last_count: bits::low32(words[35]),
        ec: (words[36] % 256) as u8,
        write_latch: words[37],
    }
}
