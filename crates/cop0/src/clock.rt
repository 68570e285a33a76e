// Count, Compare and the timer.
ghost use Rattle.std.specs.Prelude.{◌≡◌};
ghost use Rattle.cop0.specs.Record.{with_now};
ghost use Rattle.cop0.specs.Clock.{count_of, compare_of, to_compare, timer_matches_of, asked, polled_of, ticks_until_match_of};

use crate::registers::Cop0;

// What the timer answered, and the record with the last-asked mark moved.
#[derive(Clone, Copy)]
pub struct Polled {
    pub edge: bool,
    pub cop0: Cop0,
}

impl Cop0 {
    // The clock set to a position. It is set and not moved, so a call dropped or repeated does no harm.
    pub fn set_now(mut self, now: u64) -> Cop0
        ensures { result ≡ with_now self now }
    {
        self.now = now;
        self
    }

    // The clock's position.
    pub fn count_now(self) -> u64
        ensures { result ≡ self.now }
    {
        self.now
    }

    // Count, computed and not stored.
    pub fn count(self) -> u32
        ensures { result ≡ count_of self }
    {
        let elapsed = self.now.wrapping_sub(self.count_epoch_tick);
        self.count_epoch_value.wrapping_add(bits::low32(elapsed))
    }

    // Is Count equal to Compare? (6.3.4)
    pub fn timer_matches(self) -> bool
        ensures { result ≡ timer_matches_of self }
    {
        self.count() == self.compare()
    }

    // Has Count come to Compare since the timer was last asked? Count moves on between two questions, so this asks whether
    // Compare lies within the counts passed, and not whether Count stands there now: a match stepped over would be lost. To
    // stand on Compare already is no edge: at reset both are 0, and no interrupt is due.
    #[tactic(auto, using(crate::proofs::Timer::polls))]
    pub fn timer_edge(mut self) -> Polled
        ensures { result ≡ polled_of self }
    {
        let traveled = self.count().wrapping_sub(self.last_count);
        let to_compare = self.to_compare();
        self = self.ask();
        let edge = 1 <= to_compare && to_compare <= traveled;
        Polled { edge, cop0: self }
    }

    // How many counts may pass until the timer's next edge, as a bound for a batch of steps. Where Compare stands on the
    // last-asked Count the next edge is 2^32 counts away, and this answers the largest u32, so that no batch stalls at 0.
    #[tactic(auto, unfolding(crate::specs::Clock::ticks_until_match_of))]
    pub fn count_ticks_until_timer_match(self) -> u64
        ensures { result ≡ ticks_until_match_of self }
    {
        let to_compare = self.to_compare();
        if to_compare == 0 {
            return 0xFFFF_FFFF;
        }
        to_compare as u64
    }

    // The record with its last-asked mark at the present Count.
    #[tactic(auto, unfolding(crate::specs::Clock::asked))]
    pub(crate) fn ask(mut self) -> Cop0
        ensures { result ≡ asked self }
    {
        let count = self.count();
        self.last_count = count;
        self
    }

    fn compare(self) -> u32
        ensures { result ≡ compare_of self }
    {
        bits::low32(self.reg(Self::COMPARE))
    }

    // The distance from the last-asked Count to Compare.
    fn to_compare(self) -> u32
        ensures { result ≡ to_compare self }
    {
        self.compare().wrapping_sub(self.last_count)
    }
}
