// The vectors: where an exception's handler starts.
ghost use Rattle.std.specs.Prelude.{◌≡◌};
ghost use Rattle.exception.specs.Vectors.{base_of, refill_offset_of, vector_of};

// Which vector an exception uses.
#[derive(Clone, Copy, PartialEq, Eq)]
pub enum VectorKind {
    // The common vector.
    General,
    // A miss under 32-bit addressing.
    TlbRefill,
    // A miss under 64-bit addressing.
    XtlbRefill,
    // Cold reset, soft reset and NMI.
    Reset,
}

// The address of a vector (tables 6-3 and 6-4), by Status from before the exception.
pub fn vector(status: u64, kind: VectorKind) -> u64
    ensures { result ≡ vector_of status kind }
{
    match kind {
        VectorKind::Reset => 0xFFFF_FFFF_BFC0_0000,
        VectorKind::General => base(status) + 0x180,
        VectorKind::TlbRefill => base(status) + refill_offset(status, 0x000),
        VectorKind::XtlbRefill => base(status) + refill_offset(status, 0x080),
    }
}

// BEV (22) moves the vectors to the boot ROM.
fn base(status: u64) -> u64
    ensures { result ≡ base_of status }
{
    if bits::field(status, 22, 22) == 1 {
        return 0xFFFF_FFFF_BFC0_0200;
    }
    0xFFFF_FFFF_8000_0000
}

// A refill with EXL (1) already set takes the common vector. Figure 6-15 says 0x080 there; both tables and 6.4.8 say otherwise.
fn refill_offset(status: u64, own: u64) -> u64
    ensures { result ≡ refill_offset_of status own }
{
    if bits::field(status, 1, 1) == 1 {
        return 0x180;
    }
    own
}
