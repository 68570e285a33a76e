// One operation of a session, whichever it is.
ghost use Rattle.std.specs.Prelude.{◌≡◌};
ghost use Rattle.session.specs.Step.{outcome, step_of};

use crate::op::Op;
use crate::session::{Session, Stepped};

impl Session {
    // Runs an operation: every input of a room goes through here.
    pub fn step(self, op: Op) -> Stepped
        ensures { outcome result ≡ step_of op self }
    {
        match op {
            Op::Mfc0(n) => self.mfc0(n),
            Op::Dmfc0(n) => self.dmfc0(n),
            Op::Mtc0(n, value) => self.mtc0(n, value),
            Op::Dmtc0(n, value) => self.dmtc0(n, value),
            Op::SetIp(bit, on) => self.set_ip(bit, on),
            Op::InterruptPending => self.interrupt_pending(),
            Op::Advance(counts, steps) => self.advance(counts, steps),
            Op::IsShutdown => self.is_shutdown(),
            Op::Entry(i) => self.entry(i),
            Op::PageSize(mask) => self.page_size(mask),
            Op::PairSize(mask) => self.pair_size(mask),
            Op::Lookup(vaddr, asid, store) => self.lookup(vaddr, asid, store),
            Op::WriteEntry(index) => self.write_entry(index),
            Op::ReadEntry(index) => self.read_entry(index),
            Op::Probe => self.probe(),
            Op::JtlbHasMatch(vaddr, asid) => self.jtlb_has_match(vaddr, asid),
            Op::ItlbProbe(vaddr, asid) => self.itlb_probe(vaddr, asid),
            Op::ItlbFill(vaddr, asid) => self.itlb_fill(vaddr, asid),
            Op::TranslateVia(vaddr, asid, store, access) => {
                self.translate_via(vaddr, asid, store, access)
            }
            Op::Dispatch(exc, pc, slot, bad_vaddr) => self.dispatch(exc, pc, slot, bad_vaddr),
            Op::Eret => self.eret(),
        }
    }
}
