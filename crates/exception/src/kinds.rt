// The exceptions, and what each of them is: its code, its vector, and whether it has a faulting address.
ghost use Rattle.std.specs.Prelude.{◌≡◌};
ghost use Rattle.exception.specs.Kinds.{exc_code_of, unit_of, vector_kind_of, writes_bad_vaddr_of};
ghost use Rattle.exception.specs.Vectors.{kind_number};

use crate::exc_code;
use crate::vectors::VectorKind;

#[derive(Clone, Copy)]
pub enum Exception {
    // An interrupt was accepted: a pending bit is not masked, IE is 1, EXL and ERL are 0.
    Interrupt,
    // An address that is not aligned, or not of the access's mode. An instruction fetch is a load; loads and stores have
    // codes of their own (table 6-2).
    AddressError { store: bool },
    // Integer overflow.
    Overflow,
    // `SYSCALL`.
    Syscall,
    // `BREAK`.
    Breakpoint,
    // A conditional trap whose condition held.
    Trap,
    // A reserved opcode.
    ReservedInstruction,
    // A reserved encoding among a coprocessor's instructions: the same code, and Cause.CE names the coprocessor.
    CoprocessorReserved { unit: u8 },
    // An instruction of a coprocessor that Status.CU turns off.
    CoprocessorUnusable { unit: u8 },
    // The non-maskable interrupt (6.4.6). It has no code: `nmi` says what it does.
    Nmi,
    // No TLB entry matched. `wide` is the addressing width of the access that missed. It is told and not read from Status,
    // which answers for the handler's mode as soon as EXL is set.
    TlbRefill { store: bool, wide: bool },
    // A TLB entry matched, and its half is not valid.
    TlbInvalid { store: bool },
    // A store to a page that may not be written.
    TlbModified,
    // A floating-point exception; FCR31 says which.
    FloatingPoint,
}

// The ExcCode that an exception reports. Refill and Invalid share theirs: the handler knows them by the vector that it was
// entered through. NMI writes no code, and has Int's only so that every exception has one. A pattern for each value of
// `store` would cost a refill seven instructions more, and miss its goal.
pub fn exc_code_of(exc: Exception) -> u64
    ensures { result ≡ exc_code_of exc }
{
    match exc {
        Exception::Interrupt => exc_code::INT,
        Exception::AddressError { store } => if store {
            exc_code::ADES
        } else {
            exc_code::ADEL
        },
        Exception::Overflow => exc_code::OV,
        Exception::Syscall => exc_code::SYS,
        Exception::Breakpoint => exc_code::BP,
        Exception::Trap => exc_code::TR,
        Exception::ReservedInstruction | Exception::CoprocessorReserved { .. } => exc_code::RI,
        Exception::CoprocessorUnusable { .. } => exc_code::CPU,
        Exception::Nmi => exc_code::INT,
        Exception::TlbRefill { store, .. } | Exception::TlbInvalid { store } => if store {
            exc_code::TLBS
        } else {
            exc_code::TLBL
        },
        Exception::TlbModified => exc_code::MOD,
        Exception::FloatingPoint => exc_code::FPE,
    }
}

// The vector that an exception takes. Only a genuine miss takes a refill vector: Invalid and Modified found an entry, and there
// is nothing to refill. 64-bit addressing has a refill handler of its own, since it walks another page table.
pub fn vector_kind_of(exc: Exception) -> VectorKind
    ensures { kind_number result ≡ kind_number (vector_kind_of exc) }
{
    match exc {
        Exception::Nmi => VectorKind::Reset,
        Exception::TlbRefill { wide: true, .. } => VectorKind::XtlbRefill,
        Exception::TlbRefill { wide: false, .. } => VectorKind::TlbRefill,
        Exception::Interrupt
        | Exception::AddressError { .. }
        | Exception::Overflow
        | Exception::Syscall
        | Exception::Breakpoint
        | Exception::Trap
        | Exception::ReservedInstruction
        | Exception::CoprocessorReserved { .. }
        | Exception::CoprocessorUnusable { .. }
        | Exception::FloatingPoint
        | Exception::TlbModified
        | Exception::TlbInvalid { .. } => VectorKind::General,
    }
}

// Does this exception write BadVAddr? Only those that have a faulting address do: address errors and TLB faults (6.3.2).
pub fn writes_bad_vaddr(exc: Exception) -> bool
    ensures { result ≡ writes_bad_vaddr_of exc }
{
    match exc {
        Exception::TlbRefill { .. }
        | Exception::TlbInvalid { .. }
        | Exception::TlbModified
        | Exception::AddressError { .. } => true,
        Exception::Interrupt
        | Exception::Overflow
        | Exception::Breakpoint
        | Exception::Trap
        | Exception::ReservedInstruction
        | Exception::CoprocessorReserved { .. }
        | Exception::CoprocessorUnusable { .. }
        | Exception::Nmi
        | Exception::FloatingPoint
        | Exception::Syscall => false,
    }
}

// The coprocessor that an exception names, for Cause.CE.
pub(crate) fn unit_of(exc: Exception) -> u8
    ensures { result ≡ unit_of exc }
{
    match exc {
        Exception::CoprocessorReserved { unit } | Exception::CoprocessorUnusable { unit } => unit,
        Exception::Interrupt
        | Exception::AddressError { .. }
        | Exception::Overflow
        | Exception::Syscall
        | Exception::Breakpoint
        | Exception::Trap
        | Exception::ReservedInstruction
        | Exception::Nmi
        | Exception::TlbRefill { .. }
        | Exception::TlbInvalid { .. }
        | Exception::TlbModified
        | Exception::FloatingPoint => 0,
    }
}
