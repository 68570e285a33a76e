// The TLB as 132 words: entry i is words 4i to 4i + 3 (PageMask, EntryHi, EntryLo0, EntryLo1), then the micro-TLB's two slots, its
// next slot, and whether the TLB is shut down.
ghost use Rattle.std.specs.Prelude.{◌≡◌, ◌+◌, ◌*◌, ◌/◌, ◌%◌, ◌^◌};
ghost use Rattle.tlb.specs.Entries.{page_size_of, pair_size_of, translated, half_answer, entry_answer};
ghost use Rattle.tlb.specs.Table.{matching};
ghost use Rattle.tlb.specs.Lookup.{lookup_answer, lookup_table};
ghost use Rattle.tlb.specs.Micro.{lowest, has_match_of, slot_hits, probed_of, filled_of};
ghost use Rattle.tlb.specs.Moves.{page_of};
ghost use Rattle.rimjhodek.specs.Table.{entry_in, entries_in, table_in, put_micro, only_of, key_of, key_hits, hits_at, turned, failed, looked_of, if_below};

use crate::places::Place;
use tlb::Tlb;

// Where an address leads. `error` is 0 where there is an address, else 1 for Refill, 2 for Invalid, 3 for Modified and, of a
// translation, 4 for an address error and 255 for a number that names no mode.
#[repr(C)]
#[derive(Clone, Copy, Default)]
pub struct Looked {
    pub error: u8,
    pub uncached: bool,
    // The number of the entry that gave the address, or 32 in a direct segment.
    pub entry: u8,
    pub addr: u32,
}

#[unsafe(no_mangle)]
pub extern "C" fn rimjhodek_page_size(mask: u32) -> u64
    ensures { result ≡ page_size_of mask }
{
    Tlb::page_size(mask)
}

#[unsafe(no_mangle)]
pub extern "C" fn rimjhodek_pair_size(mask: u32) -> u64
    ensures { result ≡ pair_size_of mask }
{
    Tlb::pair_size(mask)
}

// Where an address leads. Two entries that match shut the TLB down for good.
#[unsafe(no_mangle)]
pub extern "C" fn rimjhodek_lookup(
    tlb: &mut [u64; 132],
    vaddr: u64,
    asid: u8,
    store: bool,
) -> Looked
    ensures { (result ≡ looked_of (lookup_answer (table_in tlb.old) vaddr asid store))
        × (tlb.new ≡ put_micro tlb.old (lookup_table (table_in tlb.old) vaddr asid)) }
{
    look(vaddr, asid, store, tlb)
}

// Would a lookup find an entry?
#[tactic(auto, using(crate::proofs::Looking::some_below), unfolding(tlb::specs::Micro::has_match_of, tlb::specs::Micro::lowest))]
#[unsafe(no_mangle)]
pub extern "C" fn rimjhodek_jtlb_has_match(tlb: &[u64; 132], vaddr: u64, asid: u8) -> bool
    ensures { result ≡ has_match_of (table_in tlb.now) vaddr asid }
{
    if tlb[131] % 2 == 1 {
        return false;
    }
    lowest(tlb, vaddr, asid).is_some()
}

// Does the micro-TLB hit? A hit makes its other slot the next to be filled.
#[tactic(auto, using(crate::proofs::Looking::first_hits, crate::proofs::Looking::second_hits, crate::proofs::Looking::neither_hits))]
#[unsafe(no_mangle)]
pub extern "C" fn rimjhodek_itlb_probe(tlb: &mut [u64; 132], vaddr: u64, asid: u8) -> bool
    ensures { (result ≡ (probed_of (table_in tlb.old) vaddr asid).hit)
        × (tlb.new ≡ put_micro tlb.old (probed_of (table_in tlb.old) vaddr asid).tlb) }
{
    let first = tlb[128];
    if slot_hits(tlb, first, vaddr, asid) {
        tlb[130] = bits::with_field(tlb[130], 7, 0, 1);
        return true;
    }
    let second = tlb[129];
    if slot_hits(tlb, second, vaddr, asid) {
        tlb[130] = bits::with_field(tlb[130], 7, 0, 0);
        return true;
    }
    false
}

// The lowest matching entry goes into the micro-TLB's next slot.
#[tactic(auto, using(crate::proofs::Looking::fills, crate::proofs::Looking::fills_nothing, crate::proofs::Looking::below, crate::proofs::Looking::not_below))]
#[unsafe(no_mangle)]
pub extern "C" fn rimjhodek_itlb_fill(tlb: &mut [u64; 132], vaddr: u64, asid: u8)
    ensures { tlb.new ≡ put_micro tlb.old (filled_of (table_in tlb.old) vaddr asid) }
{
    if let Some(first) = lowest(tlb, vaddr, asid) {
        let way = (tlb[130] % 2) as usize;
        let at = 128 + way;
        tlb[at] = bits::with_field(tlb[at], 7, 0, first as u64);
        tlb[130] = bits::with_field(tlb[130], 7, 0, 1 - way as u64);
    }
}

// A lookup, as both exports ask it. Its answer comes back through memory, whose address is passed before the arguments: with the
// table last the others stay in the registers that the exports have them in.
pub(crate) fn look(vaddr: u64, asid: u8, store: bool, tlb: &mut [u64; 132]) -> Looked
    ensures { (result ≡ looked_of (lookup_answer (table_in tlb.old) vaddr asid store))
        × (tlb.new ≡ put_micro tlb.old (lookup_table (table_in tlb.old) vaddr asid)) }
{
    if tlb[131] % 2 == 1 {
        return failed(1);
    }
    let only = scan(tlb, vaddr, asid);
    if only < 128 {
        return answer(tlb, Place { at: only }, vaddr, store);
    }
    if only == 128 {
        return failed(1);
    }
    tlb[131] = bits::with_field(tlb[131], 0, 0, 1);
    failed(1)
}

// Where the one entry that matches begins: four words to its number. 128 where there is none, and 256 where there are more. Places
// are held and no numbers, so that no second count goes along. An enum of the three costs a lookup 17 instructions
// more, 0.77 of the original's where 0.75 is the goal. Eight entries
// are asked a turn, since to turn costs half as much as to ask one.
fn scan(tlb: &[u64; 132], vaddr: u64, asid: u8) -> usize
    ensures { result ≡ 4 * only_of (matching (entries_in tlb.now) vaddr asid 0) }
{
    let key = key_of(vaddr, asid);
    let mut found: usize = 128;
    for k in 0..4 {
        let at = 32 * k;
        found = turn(tlb, Place { at }, key, found);
        found = turn(tlb, Place { at: at + 4 }, key, found);
        found = turn(tlb, Place { at: at + 8 }, key, found);
        found = turn(tlb, Place { at: at + 12 }, key, found);
        found = turn(tlb, Place { at: at + 16 }, key, found);
        found = turn(tlb, Place { at: at + 20 }, key, found);
        found = turn(tlb, Place { at: at + 24 }, key, found);
        found = turn(tlb, Place { at: at + 28 }, key, found);
    }
    found
}

// What is found with the entry at a place asked too.
#[tactic(auto, unfolding(crate::specs::Table::turned))]
fn turn(tlb: &[u64; 132], place: Place, key: u64, found: usize) -> usize
    ensures { result ≡ turned (hits_at tlb.now place.at key) place.at found }
{
    if entry_hits(tlb, place, key) {
        if found == 128 {
            return place.at;
        }
        return 256;
    }
    found
}

// The lowest entry that matches.
pub(crate) fn lowest(tlb: &[u64; 132], vaddr: u64, asid: u8) -> Option<usize>
    ensures { result ≡ if_below (lowest (table_in tlb.now) vaddr asid) }
{
    let key = key_of(vaddr, asid);
    for i in 0..32 {
        if entry_hits(tlb, Place { at: 4 * i }, key) {
            return Some(i);
        }
    }
    None
}

// Does the entry that a slot names match? A number from 32 up is an empty slot.
#[tactic(auto, using(crate::proofs::Looking::slot_asked), unfolding(tlb::specs::Micro::slot_hits))]
fn slot_hits(tlb: &[u64; 132], slot: u64, vaddr: u64, asid: u8) -> bool
    ensures { result ≡ slot_hits (table_in tlb.now) (slot % 2 ^ 8) vaddr asid }
{
    let i = (slot % 256) as usize;
    if i < 32 {
        return entry_hits(tlb, Place { at: 4 * i }, key_of(vaddr, asid));
    }
    false
}

// Does the entry at a place match?
fn entry_hits(tlb: &[u64; 132], place: Place, key: u64) -> bool
    ensures { result ≡ hits_at tlb.now place.at key }
{
    let at = place.at;
    hits(tlb[at], tlb[at + 1], tlb[at + 2], key)
}

// Do the words of an entry match? What differs, outside the mask, must lie where nothing is compared.
#[tactic(auto, using(crate::proofs::Comparing::other_tag, crate::proofs::Comparing::own_asid, crate::proofs::Comparing::by_global))]
fn hits(mask: u64, hi: u64, lo0: u64, key: u64) -> bool
    ensures { result ≡ key_hits mask hi lo0 key }
{
    let differs = key ^ hi;
    let kept = !(mask % 0x1_0000_0000);
    if differs & kept & 0xC000_00FF_FFFF_E000 != 0 {
        return false;
    }
    if differs % 256 == 0 {
        return true;
    }
    lo0 % 2 == 1
}

// An address with an ASID in its low byte, as EntryHi has them.
fn key_of(vaddr: u64, asid: u8) -> u64
    ensures { result ≡ key_of vaddr asid }
{
    vaddr / 256 * 256 + asid as u64
}

// What the one entry that matches answers: by the half that the bit above the offset within a page selects.
fn answer(tlb: &[u64; 132], place: Place, vaddr: u64, store: bool) -> Looked
    ensures { result ≡ looked_of (entry_answer (place.at / 4) (entry_in tlb.now (place.at / 4)) vaddr store) }
{
    let at = place.at;
    let entry = (at / 4) as u8;
    let size = Tlb::page_size(bits::low32(tlb[at]));
    if vaddr & size == 0 {
        return half(entry, tlb[at + 2], size - 1, vaddr, store);
    }
    half(entry, tlb[at + 3], size - 1, vaddr, store)
}

// What a half's word of entry `entry` answers, where `offset` has the bits of an address within the page.
#[tactic(auto, unfolding(tlb::specs::Entries::half_answer))]
fn half(entry: u8, lo: u64, offset: u64, vaddr: u64, store: bool) -> Looked
    ensures { result ≡ looked_of (half_answer entry (page_of lo) offset vaddr store) }
{
    if bits::field(lo, 1, 1) != 1 {
        return failed(2);
    }
    if !store {
        return found(entry, lo, offset, vaddr);
    }
    if bits::field(lo, 2, 2) != 1 {
        return failed(3);
    }
    found(entry, lo, offset, vaddr)
}

fn found(entry: u8, lo: u64, offset: u64, vaddr: u64) -> Looked
    ensures { result ≡ looked_of (translated entry (page_of lo) offset vaddr) }
{
    Looked {
        error: 0,
        uncached: bits::field(lo, 5, 3) == 2,
        entry,
        addr: bits::low32(bits::merge(offset, vaddr, bits::field(lo, 25, 6) * 4096)),
    }
}

// No address.
pub(crate) fn failed(error: u8) -> Looked
    ensures { result ≡ failed error }
{
    Looked {
        error,
        ..Looked::default()
    }
}
