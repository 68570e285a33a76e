// The segments: which part of the address space an address lies in, and how it is reached.
ghost use Rattle.std.specs.Prelude.{◌≡◌, ◌≤◌};
ghost use Rattle.addr.specs.Segments.{inside, direct, xkphys, how, segment_in, compatibility, rows_of, segment_of};
ghost use Rattle.addr.specs.Answers.{told_segment};

use crate::access::{Access, Mode};

// Whether an access goes through the caches. The segment decides it, and it cannot be told from a physical address later:
// KSEG0 and KSEG1 have both become the same number. An enum and no flag, as the scope has it in a direct segment.
#[derive(Clone, Copy, PartialEq, Eq)]
pub enum Cached {
    Yes,
    No,
}

// How an address of a segment is reached.
#[derive(Clone, Copy)]
pub enum Segment {
    // Without the TLB.
    Direct { addr: u32, cached: Cached },
    // By the TLB, whose entry decides the physical address and whether the access is cached.
    Mapped,
    // Not an address of this mode: an address error, raised before the TLB is asked. It is no TLB fault, since a refill's
    // handler would map the page and grant an access that the mode does not allow.
    Invalid,
}

impl Access {
    // The segment of an address (5.2.4, tables 5-3 and 5-4): the half of translation that needs no TLB.
    #[tactic(auto, unfolding(crate::specs::Segments::segment_of))]
    pub fn segment(self, vaddr: u64) -> Segment
        ensures { told_segment result ≡ told_segment (segment_of self vaddr) }
    {
        // Cold reset sets ERL, so this is how every boot starts (5.2.2). The whole address is compared: 1_0000_1000 is
        // past the 2 GB, though its low word is not.
        if self.erl && within(vaddr, 0, USEG_LAST) {
            return direct(vaddr, 31, Cached::No);
        }
        let mode = self.mode;
        let wide = self.wide;
        match mode {
            Mode::Kernel => kernel_segment(vaddr, wide),
            Mode::Supervisor => supervisor_segment(vaddr, wide),
            Mode::User => user_segment(vaddr, wide),
        }
    }
}

// Whether an address lies from first to last, both inside.
#[tactic(auto, unfolding(crate::specs::Segments::inside))]
pub fn within(v: u64, first: u64, last: u64) -> bool
    ensures { result ≡ inside first last v }
{
    first <= v && v <= last
}

// The first and last addresses of the segments that more than one mode has. The low one begins at 0 in each of them.
const USEG_LAST: u64 = 0x7FFF_FFFF;

const XUSEG_LAST: u64 = 0xFF_FFFF_FFFF;

const XSSEG_FIRST: u64 = 0x4000_0000_0000_0000;

const XSSEG_LAST: u64 = 0x4000_00FF_FFFF_FFFF;

const SSEG_FIRST: u64 = 0xFFFF_FFFF_C000_0000;

const SSEG_LAST: u64 = 0xFFFF_FFFF_DFFF_FFFF;

// User mode: one segment. What would be KSEG0 is an address error, and this, not the TLB, keeps a user program out of it.
fn user_segment(v: u64, wide: bool) -> Segment
    ensures { told_segment result ≡ told_segment (segment_in (rows_of Mode.User wide) v) }
{
    if wide {
        if within(v, 0, XUSEG_LAST) {
            return Segment::Mapped;
        }
        return Segment::Invalid;
    }
    if within(v, 0, USEG_LAST) {
        return Segment::Mapped;
    }
    Segment::Invalid
}

// Supervisor mode: SUSEG and SSEG; under 64-bit addressing XSUSEG, XSSEG and CSSEG.
fn supervisor_segment(v: u64, wide: bool) -> Segment
    ensures { told_segment result ≡ told_segment (segment_in (rows_of Mode.Supervisor wide) v) }
{
    if wide {
        if within(v, 0, XUSEG_LAST) {
            return Segment::Mapped;
        }
        if within(v, XSSEG_FIRST, XSSEG_LAST) {
            return Segment::Mapped;
        }
        if within(v, SSEG_FIRST, SSEG_LAST) {
            return Segment::Mapped;
        }
        return Segment::Invalid;
    }
    if within(v, 0, USEG_LAST) {
        return Segment::Mapped;
    }
    if within(v, SSEG_FIRST, SSEG_LAST) {
        return Segment::Mapped;
    }
    Segment::Invalid
}

// Kernel mode: KUSEG and the compatibility segments; under 64-bit addressing XKUSEG, XKSSEG, XKPHYS and XKSEG before them.
fn kernel_segment(v: u64, wide: bool) -> Segment
    ensures { told_segment result ≡ told_segment (segment_in (rows_of Mode.Kernel wide) v) }
{
    if wide {
        if within(v, 0, XUSEG_LAST) {
            return Segment::Mapped;
        }
        if within(v, XSSEG_FIRST, XSSEG_LAST) {
            return Segment::Mapped;
        }
        if within(v, 0x8000_0000_0000_0000, 0xBFFF_FFFF_FFFF_FFFF) {
            return xkphys(v);
        }
        // XKSEG ends 2^31 addresses short of 2^40.
        if within(v, 0xC000_0000_0000_0000, 0xC000_00FF_7FFF_FFFF) {
            return Segment::Mapped;
        }
        return compat_kernel_segment(v);
    }
    if within(v, 0, USEG_LAST) {
        return Segment::Mapped;
    }
    compat_kernel_segment(v)
}

// The segments from FFFF_FFFF_8000_0000 up: KSEG0, KSEG1, and KSSEG with KSEG3; CKSEG0 and so on under 64-bit addressing.
fn compat_kernel_segment(v: u64) -> Segment
    ensures { told_segment result ≡ told_segment (segment_in compatibility v) }
{
    if within(v, 0xFFFF_FFFF_8000_0000, 0xFFFF_FFFF_9FFF_FFFF) {
        return direct(v, 28, Cached::Yes);
    }
    if within(v, 0xFFFF_FFFF_A000_0000, 0xFFFF_FFFF_BFFF_FFFF) {
        return direct(v, 28, Cached::No);
    }
    if within(v, SSEG_FIRST, 0xFFFF_FFFF_FFFF_FFFF) {
        return Segment::Mapped;
    }
    Segment::Invalid
}

// One of XKPHYS's eight windows on physical memory, which differ only in their C field: as in a TLB entry, only C 2 is
// uncached (table 5-6).
fn xkphys(v: u64) -> Segment
    ensures { told_segment result ≡ told_segment (how xkphys v) }
{
    if bits::field(v, 58, 32) != 0 {
        return Segment::Invalid;
    }
    if bits::field(v, 61, 59) == 2 {
        return direct(v, 31, Cached::No);
    }
    direct(v, 31, Cached::Yes)
}

// A direct address: bits hi..0.
fn direct(v: u64, hi: u32, cached: Cached) -> Segment
    requires { hi ≤ 31 }
    ensures { told_segment result ≡ told_segment (how (direct hi cached) v) }
{
    let addr = bits::field(v, hi, 0) as u32;
    Segment::Direct { addr, cached }
}
