// Cause's pending bits, and whether one of them interrupts.
ghost use Rattle.std.specs.Prelude.{◌≡◌};
ghost use Rattle.cop0.specs.Interrupt.{set_ip_of, interrupt_pending_of};

use crate::registers::Cop0;

impl Cop0 {
    // Sets or clears a pending bit of Cause: the hardware's way to IP2 (RCP) and IP7 (timer). Software writes IP1 and IP0
    // by MTC0.
    #[tactic(auto, unfolding(crate::specs::Interrupt::set_ip_of))]
    pub fn set_ip(mut self, bit: u8, on: bool) -> Cop0
        ensures { result ≡ set_ip_of self bit on }
    {
        let at = 8 + (bit % 8) as u32;
        let cause = bits::with_field(self.reg(Self::CAUSE), at, at, on as u64);
        self = self.with_reg(Self::CAUSE, cause);
        self
    }

    // Is an interrupt taken now? Interrupts are on (IE), no handler runs (EXL and ERL clear, or a handler would be entered
    // again and again), and a pending bit is not masked (6.3.5; figure 14-4).
    #[tactic(auto, unfolding(crate::specs::Interrupt::interrupt_pending_of))]
    pub fn interrupt_pending(self) -> bool
        ensures { result ≡ interrupt_pending_of self }
    {
        let status = self.reg(Self::STATUS);
        let ip = bits::field(self.reg(Self::CAUSE), 15, 8);
        let im = bits::field(status, 15, 8);
        bits::field(status, 0, 0) == 1
            && bits::field(status, 1, 1) == 0
            && bits::field(status, 2, 2) == 0
            && ip & im != 0
    }
}
