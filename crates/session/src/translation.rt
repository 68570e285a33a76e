// The session's translation: its `Tlb`, with its `Cop0` where entries go to and from the registers.
ghost use Rattle.std.specs.Prelude.{◌≡◌};
ghost use Rattle.session.specs.declared.op.Op.TheVariants.{IsShutdown, Entry, PageSize, PairSize, Lookup, WriteEntry, ReadEntry, Probe, JtlbHasMatch, ItlbProbe, ItlbFill, TranslateVia};
ghost use Rattle.session.specs.Step.{outcome, step_of};

use crate::op::Answer;
use crate::session::{Session, Stepped};
use addr::Access;
use tlb::Tlb;

impl Session {
    pub fn is_shutdown(self) -> Stepped
        ensures { outcome result ≡ step_of IsShutdown self }
    {
        self.tells(Answer::Flag(self.tlb.is_shutdown()))
    }

    // Entry `i`, modulo 32.
    pub fn entry(self, i: usize) -> Stepped
        ensures { outcome result ≡ step_of (Entry i) self }
    {
        let entry = self.tlb.entry(i);
        self.tells(Answer::Entry(entry))
    }

    // The size of one page under a mask.
    pub fn page_size(self, mask: u32) -> Stepped
        ensures { outcome result ≡ step_of (PageSize mask) self }
    {
        self.tells(Answer::Number(Tlb::page_size(mask)))
    }

    // The size of the pair of pages that an entry covers.
    pub fn pair_size(self, mask: u32) -> Stepped
        ensures { outcome result ≡ step_of (PairSize mask) self }
    {
        self.tells(Answer::Number(Tlb::pair_size(mask)))
    }

    // Where an address leads. A second match shuts the table down.
    pub fn lookup(self, vaddr: u64, asid: u8, store: bool) -> Stepped
        ensures { outcome result ≡ step_of (Lookup vaddr asid store) self }
    {
        let looked = self.tlb.lookup(vaddr, asid, store);
        let answer = looked.answer;
        let after = looked.tlb;
        self.with_tlb(after).tells(Answer::Lookup(answer))
    }

    // `TLBWI`, `TLBWR`: the registers' entry goes into one place.
    pub fn write_entry(self, index: usize) -> Stepped
        ensures { outcome result ≡ step_of (WriteEntry index) self }
    {
        self.with_tlb(self.tlb.write_entry(index, self.cop0))
            .tells(Answer::Done)
    }

    // `TLBR`: an entry goes back into the registers.
    pub fn read_entry(self, index: usize) -> Stepped
        ensures { outcome result ≡ step_of (ReadEntry index) self }
    {
        self.with_cop0(self.tlb.read_entry(index, self.cop0))
            .tells(Answer::Done)
    }

    // `TLBP`: Index takes the number of the lowest entry that matches EntryHi.
    pub fn probe(self) -> Stepped
        ensures { outcome result ≡ step_of Probe self }
    {
        let after = self.tlb.probe(self.cop0);
        self.with_cop0(after).tells(Answer::Done)
    }

    // Would a lookup find an entry?
    pub fn jtlb_has_match(self, vaddr: u64, asid: u8) -> Stepped
        ensures { outcome result ≡ step_of (JtlbHasMatch vaddr asid) self }
    {
        self.tells(Answer::Flag(self.tlb.jtlb_has_match(vaddr, asid)))
    }

    // Does the micro-TLB hit? A hit makes its other slot the next to be filled.
    pub fn itlb_probe(self, vaddr: u64, asid: u8) -> Stepped
        ensures { outcome result ≡ step_of (ItlbProbe vaddr asid) self }
    {
        let probed = self.tlb.itlb_probe(vaddr, asid);
        let hit = probed.hit;
        let after = probed.tlb;
        self.with_tlb(after).tells(Answer::Flag(hit))
    }

    // The lowest matching entry goes into the micro-TLB's next slot.
    pub fn itlb_fill(self, vaddr: u64, asid: u8) -> Stepped
        ensures { outcome result ≡ step_of (ItlbFill vaddr asid) self }
    {
        self.with_tlb(self.tlb.itlb_fill(vaddr, asid))
            .tells(Answer::Done)
    }

    // By the segments, and by the table where they say so.
    pub fn translate_via(self, vaddr: u64, asid: u8, store: bool, access: Access) -> Stepped
        ensures { outcome result ≡ step_of (TranslateVia vaddr asid store access) self }
    {
        let made = addr::translate_via(self.tlb, vaddr, asid, store, access);
        let answer = made.answer;
        let after = made.tlb;
        self.with_tlb(after).tells(Answer::Translate(answer))
    }
}
