// The clock advance for a caller that lends its record.
ghost use Rattle.std.specs.Prelude.{◌≡◌};
ghost use Rattle.cop0.specs.Advance.{told_advance, advance_told, advance_of, code_of, advance_code};

use crate::refusal::Refusal;
use crate::registers::Cop0;

// `Cop0::advance` that changes the record where it stands, so that it need not pass through the call.
pub fn advance_in_place(c: &mut Cop0, counts: u64, steps: u64) -> Result<bool, Refusal>
    ensures { (told_advance result ≡ advance_told c.old counts steps) × (c.new ≡ advance_of c.old counts steps)
        × (code_of (told_advance result) ≡ advance_code c.old counts steps) }
{
    let after = c.advance(counts, steps);
    *c = after.cop0;
    after.answer
}
