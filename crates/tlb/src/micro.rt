// The instruction micro-TLB: two entry numbers in front of the table. A miss here is a stall and no exception (4.6.2).
ghost use Rattle.std.specs.Prelude.{◌≡◌};
ghost use Rattle.tlb.specs.Micro.{has_match_of, slot_hits, probed_of, filled_of};

use crate::table::Tlb;

// Whether the micro-TLB hit, and the table with the other slot next.
#[derive(Clone, Copy)]
pub struct ItlbProbed {
    pub hit: bool,
    pub tlb: Tlb,
}

impl Tlb {
    // Would a lookup find an entry? It neither translates nor shuts down: only a fetch that the table can serve is charged
    // for filling the micro-TLB (4.6.2).
    #[tactic(auto, using(crate::proofs::Looking::has_some), unfolding(crate::specs::Micro::has_match_of))]
    pub fn jtlb_has_match(self, vaddr: u64, asid: u8) -> bool
        ensures { result ≡ has_match_of self vaddr asid }
    {
        if self.shutdown {
            return false;
        }
        self.scan(vaddr, asid).first().is_some()
    }

    // Slot 0, then slot 1. A hit makes the other slot the next to be filled.
    #[tactic(auto, unfolding(crate::specs::Micro::probed_of))]
    pub fn itlb_probe(mut self, vaddr: u64, asid: u8) -> ItlbProbed
        ensures { result ≡ probed_of self vaddr asid }
    {
        let hit = if self.slot_hits(self.itlb[0], vaddr, asid) {
            self.itlb_lru = 1;
            true
        } else if self.slot_hits(self.itlb[1], vaddr, asid) {
            self.itlb_lru = 0;
            true
        } else {
            false
        };
        ItlbProbed { hit, tlb: self }
    }

    // The lowest matching entry goes into the next slot, and the other slot is next.
    #[tactic(auto, using(crate::proofs::Looking::lowest_is, crate::proofs::Looking::first_below, crate::proofs::Looking::lowest_is_32), unfolding(crate::specs::Micro::filled_of))]
    pub fn itlb_fill(mut self, vaddr: u64, asid: u8) -> Tlb
        ensures { result ≡ filled_of self vaddr asid }
    {
        if let Some(first) = self.scan(vaddr, asid).first() {
            let way = (self.itlb_lru % 2) as usize;
            self.itlb[way] = first as u8;
            self.itlb_lru = 1 - way as u8;
        }
        self
    }

    // Does the entry that a slot names match? A number from 32 up is an empty slot.
    #[tactic(auto, unfolding(crate::specs::Micro::slot_hits))]
    fn slot_hits(self, slot: u8, vaddr: u64, asid: u8) -> bool
        ensures { result ≡ slot_hits self slot vaddr asid }
    {
        self.entries
            .get(slot as usize)
            .is_some_and(|entry| entry.matches(vaddr, asid))
    }
}
