// The session's clock.
ghost use Rattle.std.specs.Prelude.{◌≡◌};
ghost use Rattle.session.specs.declared.op.Op.TheVariants.{Advance};
ghost use Rattle.session.specs.Step.{outcome, step_of};

use crate::op::Answer;
use crate::session::{Session, Stepped};

impl Session {
    // Moves the clock by `counts` and Random by `steps`. How a room cuts its time into such advances makes no difference
    // (proofs/Rooms.antt).
    pub fn advance(self, counts: u64, steps: u64) -> Stepped
        ensures { outcome result ≡ step_of (Advance counts steps) self }
    {
        let advanced = self.cop0.advance(counts, steps);
        let answer = advanced.answer;
        let after = advanced.cop0;
        self.with_cop0(after).tells(Answer::Advance(answer))
    }
}
