// The session's exceptions.
ghost use Rattle.std.specs.Prelude.{◌≡◌};
ghost use Rattle.session.specs.declared.op.Op.TheVariants.{Dispatch, Eret};
ghost use Rattle.session.specs.Step.{outcome, step_of};

use crate::op::Answer;
use crate::session::{Session, Stepped};
use exception::Exception;

impl Session {
    // Takes an exception. `pc` is the address of the instruction that faulted.
    pub fn dispatch(self, exc: Exception, pc: u64, in_delay_slot: bool, bad_vaddr: u64) -> Stepped
        ensures { outcome result ≡ step_of (Dispatch exc pc in_delay_slot bad_vaddr) self }
    {
        let taken = exception::dispatch(self.cop0, exc, pc, in_delay_slot, bad_vaddr);
        let dispatch = taken.dispatch;
        let after = taken.cop0;
        self.with_cop0(after).tells(Answer::Vector(dispatch))
    }

    // `ERET`: answers where to resume.
    pub fn eret(self) -> Stepped
        ensures { outcome result ≡ step_of Eret self }
    {
        let returned = exception::eret(self.cop0);
        let pc = returned.pc;
        let after = returned.cop0;
        self.with_cop0(after).tells(Answer::Number(pc))
    }
}
