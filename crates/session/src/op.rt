// A session's operations and their answers, as data: what a trace is a list of.
use addr::{Access, Physical, TranslateError};
use cop0::Refusal;
use exception::{Dispatch, Exception};
use tlb::{Entry, TlbFault, Translated};

// One operation with its operands, named after the method that it runs.
#[derive(Clone, Copy)]
pub enum Op {
    Mfc0(u8),
    Dmfc0(u8),
    Mtc0(u8, u64),
    Dmtc0(u8, u64),
    SetIp(u8, bool),
    InterruptPending,
    // Counts, and steps of Random.
    Advance(u64, u64),
    IsShutdown,
    Entry(usize),
    PageSize(u32),
    PairSize(u32),
    // An address, its ASID, and whether it is stored to.
    Lookup(u64, u8, bool),
    WriteEntry(usize),
    ReadEntry(usize),
    Probe,
    JtlbHasMatch(u64, u8),
    ItlbProbe(u64, u8),
    ItlbFill(u64, u8),
    TranslateVia(u64, u8, bool, Access),
    // The exception, the address of its instruction, whether that stands in a delay slot, and the faulting address.
    Dispatch(Exception, u64, bool, u64),
    Eret,
}

#[derive(Clone, Copy)]
pub enum Answer {
    // There is nothing to say.
    Done,
    Number(u64),
    Flag(bool),
    Entry(Entry),
    Lookup(Result<Translated, TlbFault>),
    Translate(Result<Physical, TranslateError>),
    Vector(Dispatch),
    // The only operation of a session that can be refused.
    Advance(Result<bool, Refusal>),
}
