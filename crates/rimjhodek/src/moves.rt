// Entries between the TLB's words and the registers': TLBWI and TLBWR, TLBR, TLBP.
ghost use Rattle.std.specs.Prelude.{◌≡◌, ◌%◌};
ghost use Rattle.tlb.specs.Table.{fresh_entry, fresh_table};
ghost use Rattle.tlb.specs.Moves.{entry_of, written_of, read_entry_of, probe_of};
ghost use Rattle.tlb.specs.Words.{hi_word, lo_word};
ghost use Rattle.rimjhodek.specs.Registers.{cop0_in, put_in};
ghost use Rattle.rimjhodek.specs.Table.{entry_in, table_in, put_micro, put_entry, table_words, emptied, filled_with, index_for};

use crate::places::Index;
use crate::table::lowest;
use crate::words::cop0_in;
use cop0::Cop0;
use tlb::{Entry, PageEntry, Tlb, entry_from, page_from};

// A fresh table, in place: one that is built first takes as much stack. Whatever was lent is overwritten whole.
#[unsafe(no_mangle)]
pub extern "C" fn rimjhodek_tlb_new(tlb: &mut [u64; 132])
    ensures { tlb.new ≡ table_words fresh_table }
{
    let blank = [0; 132];
    *tlb = blank;
    for i in 0..32 {
        put_fresh(tlb, Index { number: i });
    }
    empty(tlb);
}

// The four words of a fresh entry: its VPN2 is its own, so that no two match one address, and all else is 0.
fn put_fresh(tlb: &mut [u64; 132], i: Index)
    ensures { tlb.new ≡ put_entry tlb.old i.number (fresh_entry i.number) }
{
    let at = 4 * i.number;
    tlb[at] = 0;
    tlb[at + 1] = (0x7FF_FFFF - i.number as u64) * 8192;
    tlb[at + 2] = 0;
    tlb[at + 3] = 0;
}

// `TLBWI`, `TLBWR`: the registers' entry goes into one place.
#[tactic(auto, using(crate::proofs::Entering::put_written))]
#[unsafe(no_mangle)]
pub extern "C" fn rimjhodek_write_entry(tlb: &mut [u64; 132], index: usize, cop0: &[u64; 38])
    ensures { tlb.new ≡ put_micro (put_entry tlb.old (index % 32) (entry_of (cop0_in cop0.now)))
        (written_of (table_in tlb.old) index (cop0_in cop0.now)) }
{
    put_entry(tlb, Index::of(index), entry_from(cop0_in(*cop0)));
    empty(tlb);
}

// `TLBR`: an entry goes back into the registers.
#[unsafe(no_mangle)]
pub extern "C" fn rimjhodek_read_entry(tlb: &[u64; 132], index: usize, cop0: &mut [u64; 38])
    ensures { cop0.new ≡ put_in cop0.old (read_entry_of (table_in tlb.now) index (cop0_in cop0.old)) }
{
    let e = entry_in(tlb, Index::of(index));
    let after = filled_with(e).read_entry(0, cop0_in(*cop0));
    let stored = after.regs;
    cop0[5] = stored[5];
    cop0[10] = stored[10];
    cop0[2] = stored[2];
    cop0[3] = stored[3];
}

// `TLBP`: Index takes the number of the lowest entry that matches EntryHi.
#[unsafe(no_mangle)]
pub extern "C" fn rimjhodek_probe(tlb: &[u64; 132], cop0: &mut [u64; 38])
    ensures { cop0.new ≡ put_in cop0.old (probe_of (table_in tlb.now) (cop0_in cop0.old)) }
{
    let c = cop0_in(*cop0);
    let hi = c.read(Cop0::ENTRY_HI);
    let after = c.set_hardware(Cop0::INDEX, index_for(tlb, hi));
    let stored = after.regs;
    cop0[0] = stored[0];
}

// Index for EntryHi's own address and ASID.
#[tactic(auto, using(crate::proofs::Looking::below, crate::proofs::Looking::not_below), unfolding(crate::specs::Table::index_for))]
fn index_for(tlb: &[u64; 132], hi: u64) -> u64
    ensures { result ≡ index_for tlb.now hi }
{
    match lowest(tlb, hi, bits::field(hi, 7, 0) as u8) {
        Some(first) => first as u64,
        None => 0x8000_0000,
    }
}

// The entry that four words mean. Its G is EntryLo0's: a write gives both halves the same.
#[tactic(auto, unfolding(crate::specs::Table::entry_in))]
fn entry_in(tlb: &[u64; 132], i: Index) -> Entry
    ensures { result ≡ entry_in tlb.now i.number }
{
    let at = 4 * i.number;
    let mask = bits::low32(tlb[at]);
    let hi = tlb[at + 1];
    let lo0 = tlb[at + 2];
    let even = page_from(lo0);
    let odd = page_from(tlb[at + 3]);
    Entry {
        page_mask: mask,
        vpn2: bits::merge(mask as u64, 0, bits::field(hi, 39, 13) * 8192),
        asid: bits::field(hi, 7, 0) as u8,
        global: bits::field(lo0, 0, 0) == 1,
        region: bits::field(hi, 63, 62) as u8,
        lo0: even,
        lo1: odd,
    }
}

// An entry's four words.
fn put_entry(tlb: &mut [u64; 132], i: Index, e: Entry)
    ensures { tlb.new ≡ put_entry tlb.old i.number e }
{
    let at = 4 * i.number;
    let even = e.lo0;
    let odd = e.lo1;
    tlb[at] = e.page_mask as u64;
    tlb[at + 1] = hi_of(e);
    tlb[at + 2] = lo_of(even, e.global);
    tlb[at + 3] = lo_of(odd, e.global);
}

fn hi_of(e: Entry) -> u64
    ensures { result ≡ hi_word e }
{
    (e.region % 4) as u64 * 0x4000_0000_0000_0000
        + bits::field(e.vpn2, 39, 13) * 8192
        + e.asid as u64
}

fn lo_of(half: PageEntry, global: bool) -> u64
    ensures { result ≡ lo_word half global }
{
    (half.pfn % 0x10_0000) as u64 * 64
        + (half.c % 8) as u64 * 8
        + half.dirty as u64 * 4
        + half.valid as u64 * 2
        + global as u64
}

// The micro-TLB's slots emptied.
fn empty(tlb: &mut [u64; 132])
    ensures { tlb.new ≡ emptied tlb.old }
{
    tlb[128] = bits::with_field(tlb[128], 7, 0, 32);
    tlb[129] = bits::with_field(tlb[129], 7, 0, 32);
}

// A table that holds one entry alone, for an operation on one.
fn filled_with(e: Entry) -> Tlb
    ensures { result ≡ filled_with e }
{
    Tlb {
        entries: [e; 32],
        itlb: [32, 32],
        itlb_lru: 0,
        shutdown: false,
    }
}
