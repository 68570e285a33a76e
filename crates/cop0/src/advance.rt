// The clock advance.
ghost use Rattle.std.specs.Prelude.{◌≡◌};
ghost use Rattle.cop0.specs.Advance.{told_advance, advance_told, advance_of};

use crate::refusal::Refusal;
use crate::registers::Cop0;

// Whether the timer had an edge, and the record after it.
#[derive(Clone, Copy)]
pub struct Advanced {
    pub answer: Result<bool, Refusal>,
    pub cop0: Cop0,
}

impl Cop0 {
    // Moves the clock by `counts` and Random by `steps`, asks the timer and latches its interrupt on an edge. From 2^32
    // counts on Compare could be passed more than once, and the advance is refused.
    pub fn advance(mut self, counts: u64, steps: u64) -> Advanced
        ensures { (told_advance result.answer ≡ advance_told self counts steps) × (result.cop0 ≡ advance_of self counts steps) }
    {
        if counts >= 0x1_0000_0000 {
            return Advanced {
                answer: Err(Refusal::Counts),
                cop0: self,
            };
        }
        self.now = self.now.wrapping_add(counts);
        let polled = self.tick_random_by(steps).timer_edge();
        let edge = polled.edge;
        let after = polled.cop0;
        if edge {
            return Advanced {
                answer: Ok(true),
                cop0: after.set_ip(7, true),
            };
        }
        Advanced {
            answer: Ok(false),
            cop0: after,
        }
    }
}
