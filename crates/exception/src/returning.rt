// Returning from an exception.
ghost use Rattle.std.specs.Prelude.{◌≡◌};
ghost use Rattle.exception.specs.Returning.{eret_of};

use cop0::Cop0;

// Where to resume, and the registers after the return.
#[derive(Clone, Copy)]
pub struct Returned {
    pub pc: u64,
    pub cop0: Cop0,
}

// `ERET` (chapter 16): from an error level handler by ErrorEPC, else by EPC, and clears the bit of that level alone. The
// caller clears the LL bit, which is not among these registers.
#[tactic(auto, unfolding(crate::specs::Returning::eret_of))]
pub fn eret(cop0: Cop0) -> Returned
    ensures { result ≡ eret_of cop0 }
{
    let status = cop0.read(Cop0::STATUS);
    if bits::field(status, 2, 2) == 1 {
        return Returned {
            pc: cop0.read(Cop0::ERROR_EPC),
            cop0: cop0.set_hardware(Cop0::STATUS, bits::with_field(status, 2, 2, 0)),
        };
    }
    Returned {
        pc: cop0.read(Cop0::EPC),
        cop0: cop0.set_hardware(Cop0::STATUS, bits::with_field(status, 1, 1, 0)),
    }
}
