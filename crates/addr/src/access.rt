// Everything outside the address itself that decides how it translates, and its reading from Status.
ghost use Rattle.std.specs.Prelude.{◌≡◌, Ok};
ghost use Rattle.addr.specs.Access.{kernel_access, in_mode, is_kernel_of, access_of};
ghost use Rattle.addr.specs.Answers.{told_access};

use crate::refusal::Refusal;

// The privilege mode an access is made in.
#[derive(Clone, Copy, PartialEq, Eq)]
pub enum Mode {
    Kernel,
    Supervisor,
    User,
}

#[derive(Clone, Copy)]
pub struct Access {
    pub mode: Mode,
    // Status.KX, SX or UX: the bit of this mode. One flag rather than three, since only this one ever applies.
    pub wide: bool,
    // Status.ERL, which makes the first 2 GB direct and uncached (5.2.2).
    pub erl: bool,
}

impl Access {
    // The access of kernel code under 32-bit addressing, with ERL clear.
    pub fn kernel() -> Access
        ensures { result ≡ kernel_access }
    {
        Access {
            mode: Mode::Kernel,
            wide: false,
            erl: false,
        }
    }

    // The access that Status asks for, by the scope's own name for it. The manual gives KSU 3 no mode.
    #[tactic(auto, unfolding(crate::specs::Access::access_of))]
    pub fn from_status(status: u64) -> Result<Access, Refusal>
        ensures { told_access result ≡ access_of status }
    {
        if is_kernel(status) {
            return Ok(in_mode(status, Mode::Kernel, 7));
        }
        match bits::field(status, 4, 3) {
            1 => Ok(in_mode(status, Mode::Supervisor, 6)),
            2 => Ok(in_mode(status, Mode::User, 5)),
            _ => Err(Refusal::NoMode),
        }
    }
}

// Is the access the kernel's? The handler of an exception (EXL) and that of a reset or an error (ERL) run in kernel mode
// whatever KSU says (6.3.5): boot code may set KSU for its program before it leaves the reset handler.
#[tactic(auto, unfolding(crate::specs::Access::is_kernel_of))]
fn is_kernel(status: u64) -> bool
    ensures { result ≡ is_kernel_of status }
{
    if bits::field(status, 1, 1) == 1 {
        return true;
    }
    if bits::field(status, 2, 2) == 1 {
        return true;
    }
    bits::field(status, 4, 3) == 0
}

// The access in a mode whose width is Status's bit `width`.
fn in_mode(status: u64, mode: Mode, width: u32) -> Access
    ensures { told_access (Ok result) ≡ in_mode mode width status }
{
    Access {
        mode,
        wide: bits::field(status, width, width) == 1,
        erl: bits::field(status, 2, 2) == 1,
    }
}
