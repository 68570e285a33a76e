// The session's register operations: those of its `Cop0`.
ghost use Rattle.std.specs.Prelude.{◌≡◌};
ghost use Rattle.session.specs.declared.op.Op.TheVariants.{Mfc0, Dmfc0, Mtc0, Dmtc0, SetIp, InterruptPending};
ghost use Rattle.session.specs.Step.{outcome, step_of};

use crate::op::Answer;
use crate::session::{Session, Stepped};

impl Session {
    // `MFC0 rt, rd`.
    pub fn mfc0(self, n: u8) -> Stepped
        ensures { outcome result ≡ step_of (Mfc0 n) self }
    {
        self.tells(Answer::Number(self.cop0.mfc0(n)))
    }

    // `DMFC0 rt, rd`.
    pub fn dmfc0(self, n: u8) -> Stepped
        ensures { outcome result ≡ step_of (Dmfc0 n) self }
    {
        self.tells(Answer::Number(self.cop0.dmfc0(n)))
    }

    // `MTC0 rd, rt`.
    pub fn mtc0(self, n: u8, value: u64) -> Stepped
        ensures { outcome result ≡ step_of (Mtc0 n value) self }
    {
        self.with_cop0(self.cop0.mtc0(n, value)).tells(Answer::Done)
    }

    // `DMTC0 rd, rt`.
    pub fn dmtc0(self, n: u8, value: u64) -> Stepped
        ensures { outcome result ≡ step_of (Dmtc0 n value) self }
    {
        self.with_cop0(self.cop0.dmtc0(n, value))
            .tells(Answer::Done)
    }

    // The hardware sets or clears a pending bit of Cause.
    pub fn set_ip(self, bit: u8, on: bool) -> Stepped
        ensures { outcome result ≡ step_of (SetIp bit on) self }
    {
        self.with_cop0(self.cop0.set_ip(bit, on))
            .tells(Answer::Done)
    }

    // Is an interrupt taken now?
    pub fn interrupt_pending(self) -> Stepped
        ensures { outcome result ≡ step_of InterruptPending self }
    {
        self.tells(Answer::Flag(self.cop0.interrupt_pending()))
    }
}
