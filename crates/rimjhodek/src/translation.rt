// Translation.
ghost use Rattle.std.specs.Prelude.{◌≡◌};
ghost use Rattle.addr.specs.Answers.{told_segment};
ghost use Rattle.addr.specs.Segments.{segment_of};
ghost use Rattle.addr.specs.Translate.{translate_answer, translate_table};
ghost use Rattle.rimjhodek.specs.Table.{table_in, put_micro};
ghost use Rattle.rimjhodek.specs.Translation.{translated_of, via_answer, via_table, is_useg, is_kseg0, is_kseg1, direct, unmapped};

use crate::modes::{By, access_in, is_cached};
use crate::refusals::UNKNOWN;
use crate::table::{Looked, failed, look};
use addr::{Access, Segment};

// Where an address leads by an access. The kernel's KSEG0 and KSEG1, where most accesses go, are asked before the other segments;
// they are the kernel's whatever the width, with ERL or without.
#[unsafe(no_mangle)]
pub extern "C" fn rimjhodek_translate_via(
    tlb: &mut [u64; 132],
    vaddr: u64,
    asid: u8,
    store: bool,
    access: By,
) -> Looked
    ensures { (result ≡ via_answer (table_in tlb.old) vaddr asid store access)
        × (tlb.new ≡ put_micro tlb.old (via_table (table_in tlb.old) vaddr asid access)) }
{
    if access.mode == 0 {
        if is_kseg0(vaddr) {
            return unmapped(vaddr, false);
        }
        if is_kseg1(vaddr) {
            return unmapped(vaddr, true);
        }
    }
    match access_in(access) {
        Some(access) => translate(tlb, vaddr, asid, store, access),
        None => failed(UNKNOWN),
    }
}

// Directly where the segment says so, else by the TLB.
fn translate(tlb: &mut [u64; 132], vaddr: u64, asid: u8, store: bool, access: Access) -> Looked
    ensures { (result ≡ translated_of (translate_answer (table_in tlb.old) vaddr asid store access))
        × (tlb.new ≡ put_micro tlb.old (translate_table (table_in tlb.old) vaddr asid access)) }
{
    match segment_of(access, vaddr) {
        Segment::Direct { addr, cached } => direct(addr, !is_cached(cached)),
        Segment::Mapped => look(vaddr, asid, store, tlb),
        Segment::Invalid => failed(4),
    }
}

// The segment of an address. The low 2 GB, where most mapped addresses are, are asked before the others.
#[tactic(auto, using(crate::proofs::Segments::useg_segment))]
fn segment_of(access: Access, vaddr: u64) -> Segment
    ensures { told_segment result ≡ told_segment (segment_of access vaddr) }
{
    if is_useg(access.erl, vaddr) {
        return Segment::Mapped;
    }
    // Put together again for the call, so that it waits in no memory before the question.
    let Access { mode, wide, erl } = access;
    Access { mode, wide, erl }.segment(vaddr)
}

// Does an address lie in the low 2 GB, which every mode maps in either width, unless ERL makes them direct (5.2.2)?
#[tactic(auto, unfolding(crate::specs::Translation::is_useg, addr::specs::Segments::inside))]
fn is_useg(erl: bool, vaddr: u64) -> bool
    ensures { result ≡ is_useg erl vaddr }
{
    if erl {
        return false;
    }
    vaddr <= 0x7FFF_FFFF
}

// Does an address lie in KSEG0, which is cached (5.2.4)? Apart from KSEG1: one function of both would be no shorter.
fn is_kseg0(vaddr: u64) -> bool
    ensures { result ≡ is_kseg0 vaddr }
{
    addr::within(vaddr, 0xFFFF_FFFF_8000_0000, 0xFFFF_FFFF_9FFF_FFFF)
}

// Does an address lie in KSEG1, which is not?
fn is_kseg1(vaddr: u64) -> bool
    ensures { result ≡ is_kseg1 vaddr }
{
    addr::within(vaddr, 0xFFFF_FFFF_A000_0000, 0xFFFF_FFFF_BFFF_FFFF)
}

// Where an address of either leads: to its bits 28..0.
fn unmapped(vaddr: u64, uncached: bool) -> Looked
    ensures { result ≡ unmapped vaddr uncached }
{
    let addr = bits::field(vaddr, 28, 0) as u32;
    direct(addr, uncached)
}

// An address that no entry gave.
fn direct(addr: u32, uncached: bool) -> Looked
    ensures { result ≡ direct addr uncached }
{
    Looked {
        error: 0,
        uncached,
        entry: 32,
        addr,
    }
}
