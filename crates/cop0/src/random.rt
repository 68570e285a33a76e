// Random, the TLB's replacement counter (5.4.2).
ghost use Rattle.std.specs.Prelude.{◌≡◌};
ghost use Rattle.cop0.specs.Random.{tick_random_of, tick_random_by_of};

use crate::registers::Cop0;

impl Cop0 {
    // One step. The reload is at Wired and nowhere else, and the count down wraps from 0 to 63: with Wired above 31 the
    // counter was measured to go from 31 to 0, and then from 63 to Wired.
    #[tactic(auto, using(crate::proofs::RandomLaws::six_of, crate::proofs::RandomLaws::reloads, crate::proofs::RandomLaws::falls))]
    pub fn tick_random(mut self) -> Cop0
        ensures { result ≡ tick_random_of self }
    {
        let wired = bits::field(self.reg(Self::WIRED), 5, 0);
        let cur = bits::field(self.reg(Self::RANDOM), 5, 0);
        if cur == wired {
            self = self.with_reg(Self::RANDOM, 31);
            return self;
        }
        self = self.with_reg(Self::RANDOM, (cur + 63) % 64);
        self
    }

    // `n` steps at once: the walk from Random down to Wired, and then a cycle that is entered at 31. Both lengths are taken
    // modulo 64, since software can write a Wired above 31, which is above Random.
    #[tactic(auto, using(crate::proofs::RandomLaws::six_of, crate::proofs::RandomLaws::walks, crate::proofs::RandomLaws::cycles))]
    pub fn tick_random_by(mut self, n: u64) -> Cop0
        ensures { result ≡ tick_random_by_of self n }
    {
        let wired = bits::field(self.reg(Self::WIRED), 5, 0);
        let cur = bits::field(self.reg(Self::RANDOM), 5, 0);
        // At 0 it stands on Wired, and the next step is the one to 31.
        let d = (cur + 64 - wired) % 64;
        if n <= d {
            self = self.with_reg(Self::RANDOM, (cur + 64 - n) % 64);
            return self;
        }
        let cycle = (95 - wired) % 64 + 1;
        // How far into the cycle, with the step to 31 as place 0.
        let into = (n - d - 1) % cycle;
        self = self.with_reg(Self::RANDOM, (95 - into) % 64);
        self
    }
}
