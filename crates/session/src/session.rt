// The session's record.
ghost use Rattle.std.specs.Prelude.{◌≡◌};
ghost use Rattle.session.specs.Record.{fresh, with_cop0, with_tlb};
ghost use Rattle.session.specs.Answers.{told_answer};
ghost use Rattle.session.specs.Step.{outcome, told};

use crate::op::Answer;
use cop0::Cop0;
use tlb::Tlb;

// All that a room's members must agree on.
#[derive(Clone, Copy)]
pub struct Session {
    pub cop0: Cop0,
    pub tlb: Tlb,
}

// An operation's answer, and the session after it.
#[derive(Clone, Copy)]
pub struct Stepped {
    pub answer: Answer,
    pub session: Session,
}

impl Session {
    // As at power-on.
    pub fn new() -> Session
        ensures { result ≡ fresh }
    {
        Session {
            cop0: Cop0::new(),
            tlb: Tlb::new(),
        }
    }

    pub(crate) fn with_cop0(mut self, cop0: Cop0) -> Session
        ensures { result ≡ with_cop0 self cop0 }
    {
        self.cop0 = cop0;
        self
    }

    pub(crate) fn with_tlb(mut self, tlb: Tlb) -> Session
        ensures { result ≡ with_tlb self tlb }
    {
        self.tlb = tlb;
        self
    }

    // An answer beside this session.
    pub(crate) fn tells(self, answer: Answer) -> Stepped
        ensures { outcome result ≡ told (told_answer answer) self }
    {
        Stepped {
            answer,
            session: self,
        }
    }
}
