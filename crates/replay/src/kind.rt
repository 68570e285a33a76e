// What the numbers of a line stand for. It doesn't matter what one over its limit stands for: its line is turned away. These
// are functions and no `From`, since a number and what it stands for are both types of other crates; and the numbers are a
// trace's own, though the exports have the same.
use crate::operand::{byte, flag};
use addr::{Access, Mode};
use exception::{Exception, VectorKind};

// A mode, its width and ERL.
pub fn access_of(mode: u64, wide: u64, erl: u64) -> Access {
    Access {
        mode: mode_of(mode),
        wide: flag(wide),
        erl: flag(erl),
    }
}

fn mode_of(value: u64) -> Mode {
    match value {
        0 => Mode::Kernel,
        1 => Mode::Supervisor,
        _ => Mode::User,
    }
}

pub fn vector_of(value: u64) -> VectorKind {
    match value {
        0 => VectorKind::General,
        1 => VectorKind::TlbRefill,
        2 => VectorKind::XtlbRefill,
        _ => VectorKind::Reset,
    }
}

// The exception of a number, with A and B.
pub fn exception_of(number: u64, a: u64, b: u64) -> Exception {
    let store = flag(a);
    let unit = byte(a);
    let wide = flag(b);
    match number {
        0 => Exception::Interrupt,
        1 => Exception::AddressError { store },
        2 => Exception::Overflow,
        3 => Exception::Syscall,
        4 => Exception::Breakpoint,
        5 => Exception::Trap,
        6 => Exception::ReservedInstruction,
        7 => Exception::CoprocessorReserved { unit },
        8 => Exception::CoprocessorUnusable { unit },
        9 => Exception::Nmi,
        10 => Exception::TlbRefill { store, wide },
        11 => Exception::TlbInvalid { store },
        12 => Exception::TlbModified,
        _ => Exception::FloatingPoint,
    }
}
