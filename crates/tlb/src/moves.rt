// Entries to and from the registers: TLBWI and TLBWR, TLBR, TLBP.
ghost use Rattle.std.specs.Prelude.{◌≡◌, ◌%◌};
ghost use Rattle.tlb.specs.Moves.{canonical_of, page_of, global_of, entry_of, written_of, lo_of, hi_of, read_entry_of, probe_of};

use crate::entries::{Entry, PageEntry};
use crate::table::Tlb;
use cop0::Cop0;

impl Tlb {
    // `TLBWI`, `TLBWR`: the registers' entry goes into one place. The micro-TLB is emptied, and keeps its next slot.
    #[tactic(auto, unfolding(crate::specs::Moves::written_of))]
    pub fn write_entry(mut self, index: usize, cop0: Cop0) -> Tlb
        ensures { result ≡ written_of self index cop0 }
    {
        self.entries[index % 32] = entry_from(cop0);
        self.itlb = [32, 32];
        self
    }

    // `TLBR`: an entry goes back into the registers. EntryHi has no G, so both halves take the entry's.
    #[tactic(auto, unfolding(crate::specs::Moves::read_entry_of))]
    pub fn read_entry(self, index: usize, cop0: Cop0) -> Cop0
        ensures { result ≡ read_entry_of self index cop0 }
    {
        let e = self.entry(index);
        cop0.set_hardware(Cop0::PAGE_MASK, e.page_mask as u64)
            .set_hardware(Cop0::ENTRY_HI, hi_from(e))
            .set_hardware(Cop0::ENTRY_LO0, lo_from(e.lo0, e.global))
            .set_hardware(Cop0::ENTRY_LO1, lo_from(e.lo1, e.global))
    }

    // `TLBP`: Index takes the number of the lowest entry that matches EntryHi, or its bit 31 (5.4.1).
    #[tactic(auto, using(crate::proofs::Looking::lowest_is, crate::proofs::Looking::first_below, crate::proofs::Looking::lowest_is_32), unfolding(crate::specs::Moves::probe_of))]
    pub fn probe(self, cop0: Cop0) -> Cop0
        ensures { result ≡ probe_of self cop0 }
    {
        let hi = cop0.read(Cop0::ENTRY_HI);
        let index = match self.scan(hi, bits::field(hi, 7, 0) as u8).first() {
            Some(first) => first as u64,
            None => 0x8000_0000,
        };
        cop0.set_hardware(Cop0::INDEX, index)
    }
}

// Six pairs of bits from bit 13 up: each is stored as 11 where its upper bit was written, and as 00 otherwise, as the hardware
// was measured to do with masks that table 5-7 lacks. The upper bits are those under 0155_4000, and each of them moved down one
// place is its pair's lower bit.
fn canonical_page_mask(mask: u64) -> u32
    ensures { result ≡ canonical_of mask }
{
    let upper = (mask & 0x0155_4000) as u32;
    upper | (upper >> 1)
}

// A half of an entry, as EntryLo0 or EntryLo1 has it (figure 5-10). No `From<u64>`: a bare number does not say that it is one.
pub fn page_from(lo: u64) -> PageEntry
    ensures { result ≡ page_of lo }
{
    PageEntry {
        pfn: bits::field(lo, 25, 6) as u32,
        c: bits::field(lo, 5, 3) as u8,
        dirty: bits::field(lo, 2, 2) == 1,
        valid: bits::field(lo, 1, 1) == 1,
    }
}

// The entry that the registers have: what a write puts into its place. No `From<Cop0>`: an entry is four of its registers.
#[tactic(auto, unfolding(crate::specs::Moves::entry_of))]
pub fn entry_from(cop0: Cop0) -> Entry
    ensures { result ≡ entry_of cop0 }
{
    let hi = cop0.read(Cop0::ENTRY_HI);
    let lo0 = cop0.read(Cop0::ENTRY_LO0);
    let lo1 = cop0.read(Cop0::ENTRY_LO1);
    let mask = canonical_page_mask(cop0.read(Cop0::PAGE_MASK));
    Entry {
        page_mask: mask,
        vpn2: bits::merge(mask as u64, 0, bits::field(hi, 39, 13) * 8192),
        asid: bits::field(hi, 7, 0) as u8,
        global: global_from(lo0, lo1),
        region: bits::field(hi, 63, 62) as u8,
        lo0: page_from(lo0),
        lo1: page_from(lo1),
    }
}

// Global where both halves say so (figure 5-10).
#[tactic(auto, unfolding(crate::specs::Moves::global_of))]
fn global_from(lo0: u64, lo1: u64) -> bool
    ensures { result ≡ global_of lo0 lo1 }
{
    bits::field(lo0, 0, 0) == 1 && bits::field(lo1, 0, 0) == 1
}

fn hi_from(e: Entry) -> u64
    ensures { result ≡ hi_of e }
{
    (e.region % 4) as u64 * 0x4000_0000_0000_0000 | e.vpn2 | e.asid as u64
}

fn lo_from(half: PageEntry, global: bool) -> u64
    ensures { result ≡ lo_of half global }
{
    half.pfn as u64 * 64
        | half.c as u64 * 8
        | half.dirty as u64 * 4
        | half.valid as u64 * 2
        | global as u64
}
