// A register by its number.
ghost use Rattle.std.specs.Prelude.{◌≡◌, ◌%◌, ◌<◌};

use cop0::Cop0;

// Five bits of an instruction name it, so that its number is below 32.
#[derive(Clone, Copy)]
pub(crate) struct Register {
    pub(crate) number: u32,
    ghost below: { number < 32 },
}

impl Register {
    pub(crate) const CONTEXT: Register = Register {
        number: Cop0::CONTEXT as u32,
    };

    pub(crate) const BAD_VADDR: Register = Register {
        number: Cop0::BAD_VADDR as u32,
    };

    pub(crate) const ENTRY_HI: Register = Register {
        number: Cop0::ENTRY_HI as u32,
    };

    pub(crate) const STATUS: Register = Register {
        number: Cop0::STATUS as u32,
    };

    pub(crate) const CAUSE: Register = Register {
        number: Cop0::CAUSE as u32,
    };

    pub(crate) const EPC: Register = Register {
        number: Cop0::EPC as u32,
    };

    pub(crate) const XCONTEXT: Register = Register {
        number: Cop0::XCONTEXT as u32,
    };

    pub(crate) const ERROR_EPC: Register = Register {
        number: Cop0::ERROR_EPC as u32,
    };

    // By the low five bits of a number.
    pub(crate) fn of(n: u32) -> Register
        ensures { result.number ≡ n % 32 }
    {
        Register { number: n % 32 }
    }
}
