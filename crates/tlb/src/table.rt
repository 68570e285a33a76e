// The table of 32 entries, and the lookup.
ghost use Rattle.std.specs.Prelude.{◌≡◌, ◌%◌, ◌<◌, Err};
ghost use Rattle.tlb.specs.Entries.{pair_size_of, page_size_of, told_lookup};
ghost use Rattle.tlb.specs.Table.{fresh_entry, fresh_table, entry_at, matching, hits_of, first_of};
ghost use Rattle.tlb.specs.Lookup.{lookup_answer, lookup_table, is_shutdown_of};

use crate::entries::{Entry, PageEntry, TlbFault, Translated};

#[derive(Clone, Copy)]
pub struct Tlb {
    pub entries: [Entry; 32],
    // The micro-TLB: two entry numbers, 32 for an empty slot. Numbers and no copies, so that it cannot serve an entry that
    // was written since; no Options: `Micro.slot_hits` and `Sound` speak of the numbers, and hosts lend them.
    pub itlb: [u8; 2],
    // The slot that the next fill takes, a number since hosts lend it: the one not used last (1.5.1).
    pub itlb_lru: u8,
    // Two entries matched: the TLB is unusable until reset (5.1).
    pub shutdown: bool,
}

// A lookup's answer, and the table after it.
#[derive(Clone, Copy)]
pub struct Looked {
    pub answer: Result<Translated, TlbFault>,
    pub tlb: Tlb,
}

// The entries that match: none, one, or the lowest of several.
#[derive(Clone, Copy)]
pub(crate) enum Hits {
    None,
    One(usize),
    Several(usize),
}

impl Hits {
    // The lowest.
    pub(crate) fn first(self) -> Option<usize>
        ensures { result ≡ first_of self }
    {
        match self {
            Hits::None => None,
            Hits::One(i) | Hits::Several(i) => Some(i),
        }
    }
}

impl Tlb {
    // Power-on. The manual leaves the entries undefined, and all zero would be the one choice that does not work: every entry
    // would match page 0. Each gets a tag of its own, near the top.
    pub fn new() -> Tlb
        ensures { result ≡ fresh_table }
    {
        Tlb {
            entries: std::array::from_fn(fresh_entry),
            itlb: [32, 32],
            itlb_lru: 0,
            shutdown: false,
        }
    }

    pub fn is_shutdown(self) -> bool
        ensures { result ≡ is_shutdown_of self }
    {
        self.shutdown
    }

    // Entry `i`, modulo 32.
    pub fn entry(self, i: usize) -> Entry
        ensures { result ≡ entry_at self (i % 32) }
    {
        self.entries[i % 32]
    }

    // The size of one page, in bytes (table 5-7).
    #[tactic(auto, unfolding(crate::specs::Entries::page_size_of))]
    pub fn page_size(mask: u32) -> u64
        ensures { result ≡ page_size_of mask }
    {
        Self::pair_size(mask) / 2
    }

    // The size of the pair that an entry covers, twice the page's.
    pub fn pair_size(mask: u32) -> u64
        ensures { result ≡ pair_size_of mask }
    {
        (mask as u64 | 0x1FFF) + 1
    }

    // Where an address leads. Two entries that match shut the TLB down for good, and a TLB that is shut down finds nothing. An
    // access is told by its address, ASID and direction one by one, here and above, as in the Rust original and in the exports.
    #[tactic(auto, using(crate::proofs::Looking::one_below))]
    pub fn lookup(mut self, vaddr: u64, asid: u8, store: bool) -> Looked
        ensures { (told_lookup result.answer ≡ told_lookup (lookup_answer self vaddr asid store))
            × (result.tlb ≡ lookup_table self vaddr asid) }
    {
        if self.shutdown {
            return self.fault();
        }
        match self.scan(vaddr, asid) {
            Hits::None => self.fault(),
            Hits::One(i) => Looked {
                answer: self.entries[i].answer(i as u8, vaddr, store),
                tlb: self,
            },
            Hits::Several(_) => {
                self.shutdown = true;
                self.fault()
            }
        }
    }

    fn fault(self) -> Looked
        ensures { (result.answer ≡ Err TlbFault.Refill) × (result.tlb ≡ self) }
    {
        Looked {
            answer: Err(TlbFault::Refill),
            tlb: self,
        }
    }

    // A scan that stops at the second match.
    #[tactic(auto, using(crate::proofs::Scanning::one_scan))]
    pub(crate) fn scan(self, vaddr: u64, asid: u8) -> Hits
        ensures { result ≡ hits_of (matching self.entries vaddr asid 0) }
    {
        let mut found = None;
        for (i, entry) in self.entries.iter().enumerate() {
            if entry.matches(vaddr, asid) {
                match found {
                    None => found = Some(i),
                    Some(first) => return Hits::Several(first),
                }
            }
        }
        match found {
            None => Hits::None,
            Some(first) => Hits::One(first),
        }
    }
}

fn fresh_entry(i: usize) -> Entry
    requires { i < 32 }
    ensures { result ≡ fresh_entry i }
{
    let half = PageEntry {
        pfn: 0,
        c: 0,
        dirty: false,
        valid: false,
    };
    Entry {
        page_mask: 0,
        vpn2: (0x7FF_FFFF - i as u64) * 8192,
        asid: 0,
        global: false,
        region: 0,
        lo0: half,
        lo1: half,
    }
}
