// What an operation answers.
use addr::{Access, TranslateError};
use exception::Dispatch;
use tlb::{Entry, TlbFault};

#[derive(Clone, Copy)]
pub enum Told {
    Done,
    Number(u64),
    Flag(bool),
    // Whether Count came to Compare.
    Edge(bool),
    Refused(u8),
    // A physical address, a flag of it, and the number of the TLB's entry.
    At(u32, bool, u8),
    Refill,
    Invalid,
    Modified,
    Address,
    Mapped,
    // A physical address, and whether it is cached.
    Direct(u32, bool),
    Access(Access),
    // An address, and the cycles that it costs.
    Vector(u64, u32),
    // An entry and its number.
    Entry(u64, Entry),
    Hit,
    Fill,
    // No line leaves.
    Stays,
    // The address of a line that leaves, and its bytes.
    Evict(u32, Line),
    // A line's tag word and its bytes.
    Line(u32, Line),
    // No answer: an operation that no arm plays.
    Unplayed,
}

impl From<Dispatch> for Told {
    fn from(taken: Dispatch) -> Told {
        Told::Vector(taken.vector, taken.stall_cycles)
    }
}

impl From<TlbFault> for Told {
    fn from(fault: TlbFault) -> Told {
        match fault {
            TlbFault::Refill => Told::Refill,
            TlbFault::Invalid => Told::Invalid,
            TlbFault::Modified => Told::Modified,
        }
    }
}

impl From<TranslateError> for Told {
    fn from(error: TranslateError) -> Told {
        match error {
            TranslateError::Address => Told::Address,
            TranslateError::Tlb(fault) => Told::from(fault),
        }
    }
}

// Each crate below has a refusal of its own, with a number. A trait over them would not do: an `impl` by it would overlap with
// the others.
impl From<cop0::Refusal> for Told {
    fn from(refusal: cop0::Refusal) -> Told {
        Told::Refused(refusal.number())
    }
}

impl From<addr::Refusal> for Told {
    fn from(refusal: addr::Refusal) -> Told {
        Told::Refused(refusal.number())
    }
}

impl From<cache::Refusal> for Told {
    fn from(refusal: cache::Refusal) -> Told {
        Told::Refused(refusal.number())
    }
}

// Nothing to say.
pub(crate) fn done(_value: ()) -> Told {
    Told::Done
}

// The bytes of a line of each cache.
#[derive(Clone, Copy)]
pub enum Line {
    Data([u8; 16]),
    Instructions([u8; 32]),
}

impl From<[u8; 16]> for Line {
    fn from(bytes: [u8; 16]) -> Line {
        Line::Data(bytes)
    }
}

impl From<[u8; 32]> for Line {
    fn from(bytes: [u8; 32]) -> Line {
        Line::Instructions(bytes)
    }
}
