// One entry: a tag and the pair of pages that it maps.
ghost use Rattle.std.specs.Prelude.{◌≡◌};
ghost use Rattle.tlb.specs.Entries.{uncached_of, matches_of, half_of, translated, half_answer, entry_answer};

use crate::table::Tlb;

// One half of an entry: the even or the odd page.
#[repr(C)]
#[derive(Clone, Copy)]
pub struct PageEntry {
    // The page frame number, in units of 4 KiB whatever the page size.
    pub pfn: u32,
    // The cache attribute: only 2 means uncached (table 5-6).
    pub c: u8,
    // Dirty, which means that it may be written.
    pub dirty: bool,
    // Valid. It has no part in matching (5.4.9).
    pub valid: bool,
}

#[repr(C)]
#[derive(Clone, Copy)]
pub struct Entry {
    // PageMask, which selects the page size.
    pub page_mask: u32,
    // The pair's tag: address bits 39..13 in place, with the mask's bits cleared. It is held in place and not divided by
    // the pair's size, since a mask may have gaps.
    pub vpn2: u64,
    pub asid: u8,
    // Ignore the ASID. It belongs to the entry: a write sets it where both halves say so (figure 5-10).
    pub global: bool,
    // Address bits 63..62.
    pub region: u8,
    pub lo0: PageEntry,
    pub lo1: PageEntry,
}

// Why a lookup failed.
#[derive(Clone, Copy, PartialEq, Eq)]
pub enum TlbFault {
    // No entry matched.
    Refill,
    // The selected half is not valid.
    Invalid,
    // A store to a half that may not be written.
    Modified,
}

// A physical address, and whether it bypasses the caches.
#[derive(Clone, Copy)]
pub struct Translated {
    pub addr: u32,
    pub uncached: bool,
    // The number of the entry that gave it: the only one that matches.
    pub entry: u8,
}

impl PageEntry {
    pub fn uncached(self) -> bool
        ensures { result ≡ uncached_of self }
    {
        self.c == 2
    }

    // What a half of entry `entry` answers, where `offset` has the bits of an address within the page.
    #[tactic(auto, unfolding(crate::specs::Entries::half_answer))]
    fn answer(self, entry: u8, offset: u64, vaddr: u64, store: bool) -> Result<Translated, TlbFault>
        ensures { result ≡ half_answer entry self offset vaddr store }
    {
        if !self.valid {
            return Err(TlbFault::Invalid);
        }
        if store && !self.dirty {
            return Err(TlbFault::Modified);
        }
        self.found(entry, offset, vaddr)
    }

    // The frame number counts 4 KiB always, so a large page's frame has low bits that give way to the offset.
    fn found(self, entry: u8, offset: u64, vaddr: u64) -> Result<Translated, TlbFault>
        ensures { result ≡ translated entry self offset vaddr }
    {
        Ok(Translated {
            addr: bits::low32(bits::merge(offset, vaddr, self.pfn as u64 * 4096)),
            uncached: self.uncached(),
            entry,
        })
    }
}

impl Entry {
    // Does the entry match? The valid bits have no part in it, so an invalid entry is found and gives Invalid, and two of
    // them clash (5.4.9). Nor have address bits 61..40: EntryHi does not hold them, and they are ones in a 32-bit kernel
    // address, which comes sign-extended.
    #[tactic(auto, unfolding(crate::specs::Entries::matches_of))]
    pub(crate) fn matches(self, vaddr: u64, asid: u8) -> bool
        ensures { result ≡ matches_of self vaddr asid }
    {
        let region = bits::field(vaddr, 63, 62);
        let vpn2 = bits::merge(self.page_mask as u64, 0, bits::field(vaddr, 39, 13) * 8192);
        region == self.region as u64 && vpn2 == self.vpn2 && (self.global || self.asid == asid)
    }

    // The half that an address selects: by the bit just above the offset within a page.
    #[tactic(auto, unfolding(crate::specs::Entries::half_of))]
    fn half(self, vaddr: u64) -> PageEntry
        ensures { result ≡ half_of self vaddr }
    {
        if vaddr & Tlb::page_size(self.page_mask) == 0 {
            self.lo0
        } else {
            self.lo1
        }
    }

    // What the one matching entry answers. An entry does not know its number, so the table says it.
    #[tactic(auto, using(crate::proofs::Sizes::page_ge), unfolding(crate::specs::Entries::entry_answer))]
    pub(crate) fn answer(self, entry: u8, vaddr: u64, store: bool) -> Result<Translated, TlbFault>
        ensures { result ≡ entry_answer entry self vaddr store }
    {
        self.half(vaddr)
            .answer(entry, Tlb::page_size(self.page_mask) - 1, vaddr, store)
    }
}
