// Exceptions.
ghost use Rattle.std.specs.Prelude.{◌≡◌, [], ◌∷◌, slice_get};
ghost use Rattle.bits.specs.Field.{bit};
ghost use Rattle.bits.specs.Told.{answered};
ghost use Rattle.exception.specs.declared.kinds.Exception.TheVariants.{TlbRefill};
ghost use Rattle.exception.specs.Kinds.{exc_code_of, vector_kind_of, writes_bad_vaddr_of};
ghost use Rattle.exception.specs.Vectors.{kind_number, vector_of};
ghost use Rattle.exception.specs.Taking.{nmi_of, dispatch_of};
ghost use Rattle.exception.specs.Returning.{eret_of};
ghost use Rattle.rimjhodek.specs.Answers.{flag_of, number_of};
ghost use Rattle.rimjhodek.specs.Numbered.{if_named};
ghost use Rattle.rimjhodek.specs.Registers.{cop0_in, put_in};
ghost use Rattle.rimjhodek.specs.Exceptions.{exceptions_of, is_exception, exception_of, kinds, is_kind, kind_of, dispatch_values, taken_of, dispatch_told, dispatched_of};

use crate::answers::{Flag, Number};
use crate::epilogue::{enter, record, record_address};
use crate::refusals::UNKNOWN;
use crate::register::Register;
use crate::registers::{read, set_hardware};
use exception::{EPILOGUE_STALL, Exception, VectorKind};

// An exception by its number, in `Exception`'s order from 0, with the values that some of them hold.
#[repr(C)]
#[derive(Clone, Copy)]
pub struct Exc {
    pub number: u8,
    pub store: bool,
    pub wide: bool,
    pub unit: u8,
}

// Where to fetch next, and the pipeline's cycles that the exception costs.
#[repr(C)]
#[derive(Clone, Copy, Default)]
pub struct Taken {
    pub refused: u8,
    pub stall_cycles: u32,
    pub vector: u64,
}

// Takes an exception. `pc` is the address of the instruction that faulted.
#[unsafe(no_mangle)]
pub extern "C" fn rimjhodek_dispatch(
    cop0: &mut [u64; 38],
    exc: Exc,
    pc: u64,
    in_delay_slot: bool,
    bad_vaddr: u64,
) -> Taken
    ensures { (result ≡ taken_of (dispatch_told (cop0_in cop0.old) exc pc in_delay_slot bad_vaddr))
        × (cop0.new ≡ put_in cop0.old (dispatched_of (cop0_in cop0.old) exc pc in_delay_slot bad_vaddr)) }
{
    // An access waits for a refill: it goes apart from the choice between the others, and by its number, since an arm of the `match`
    // costs nine instructions more.
    if exc.number == 10 {
        return refill(cop0, exc.store, exc.wide, pc, in_delay_slot, bad_vaddr);
    }
    match exception_of(exc) {
        Some(exception) => dispatch(cop0, exception, pc, in_delay_slot, bad_vaddr),
        None => Taken {
            refused: UNKNOWN,
            ..Taken::default()
        },
    }
}

// The non-maskable interrupt (6.4.6): ErrorEPC, and four bits of Status.
#[tactic(auto, unfolding(crate::specs::Registers::is_special, cop0::specs::Registers::among))]
#[unsafe(no_mangle)]
pub extern "C" fn rimjhodek_nmi(cop0: &mut [u64; 38], pc: u64) -> Taken
    ensures { (result ≡ taken_of (answered (dispatch_values (nmi_of (cop0_in cop0.old) pc).dispatch)))
        × (cop0.new ≡ put_in cop0.old (nmi_of (cop0_in cop0.old) pc).cop0) }
{
    let status = read(cop0, Register::STATUS);
    set_hardware(cop0, Register::ERROR_EPC, pc);
    set_hardware(cop0, Register::STATUS, exception::nmi_status(status));
    taking(exception::vector(status, VectorKind::Reset), EPILOGUE_STALL)
}

// `ERET`: answers where to resume. From an error's handler (ERL) by ErrorEPC, else by EPC.
#[tactic(auto, unfolding(crate::specs::Registers::is_special, cop0::specs::Registers::among, exception::specs::Returning::eret_of))]
#[unsafe(no_mangle)]
pub extern "C" fn rimjhodek_eret(cop0: &mut [u64; 38]) -> u64
    ensures { (result ≡ (eret_of (cop0_in cop0.old)).pc)
        × (cop0.new ≡ put_in cop0.old (eret_of (cop0_in cop0.old)).cop0) }
{
    let status = read(cop0, Register::STATUS);
    if bits::field(status, 2, 2) == 1 {
        let pc = read(cop0, Register::ERROR_EPC);
        set_hardware(cop0, Register::STATUS, bits::with_field(status, 2, 2, 0));
        return pc;
    }
    let pc = read(cop0, Register::EPC);
    set_hardware(cop0, Register::STATUS, bits::with_field(status, 1, 1, 0));
    pc
}

// Where a handler starts. A vector's number is in `VectorKind`'s order from 0.
#[tactic(auto, using(crate::proofs::Naming::kind_unnamed))]
#[unsafe(no_mangle)]
pub extern "C" fn rimjhodek_vector(status: u64, kind: u8) -> Number
    ensures { result ≡ number_of (if_named (is_kind kind) (vector_of status (kind_of kind) ∷ [])) }
{
    match kind_of(kind) {
        Some(kind) => Number::of(exception::vector(status, kind)),
        None => Number::unknown(),
    }
}

#[tactic(auto, using(crate::proofs::Naming::exception_unnamed))]
#[unsafe(no_mangle)]
pub extern "C" fn rimjhodek_exc_code_of(exc: Exc) -> Number
    ensures { result ≡ number_of (if_named (is_exception exc) (exc_code_of (exception_of exc) ∷ [])) }
{
    match exception_of(exc) {
        Some(exception) => Number::of(exception::exc_code_of(exception)),
        None => Number::unknown(),
    }
}

#[tactic(auto, using(crate::proofs::Naming::exception_unnamed))]
#[unsafe(no_mangle)]
pub extern "C" fn rimjhodek_vector_kind_of(exc: Exc) -> Number
    ensures { result ≡ number_of (if_named (is_exception exc) (kind_number (vector_kind_of (exception_of exc)) ∷ [])) }
{
    match exception_of(exc) {
        Some(exception) => Number::of(kind_number(exception::vector_kind_of(exception))),
        None => Number::unknown(),
    }
}

#[tactic(auto, using(crate::proofs::Naming::exception_unnamed))]
#[unsafe(no_mangle)]
pub extern "C" fn rimjhodek_writes_bad_vaddr(exc: Exc) -> Flag
    ensures { result ≡ flag_of (if_named (is_exception exc) (bit (writes_bad_vaddr_of (exception_of exc)) ∷ [])) }
{
    match exception_of(exc) {
        Some(exception) => Flag {
            refused: 0,
            is: exception::writes_bad_vaddr(exception),
        },
        None => Flag {
            refused: UNKNOWN,
            ..Flag::default()
        },
    }
}

// An exception's own steps on the words (figure 6-14): its cause, its faulting address where it has one, and EXL.
#[tactic(auto, unfolding(crate::specs::Registers::is_special, cop0::specs::Registers::among))]
fn dispatch(
    cop0: &mut [u64; 38],
    exc: Exception,
    pc: u64,
    in_delay_slot: bool,
    bad_vaddr: u64,
) -> Taken
    ensures { (result ≡ taken_of (answered (dispatch_values
        (dispatch_of (cop0_in cop0.old) exc pc in_delay_slot bad_vaddr).dispatch)))
        × (cop0.new ≡ put_in cop0.old
        (dispatch_of (cop0_in cop0.old) exc pc in_delay_slot bad_vaddr).cop0) }
{
    let kind = exception::vector_kind_of(exc);
    // NMI alone takes the Reset vector, and does nothing of what follows.
    if kind == VectorKind::Reset {
        return rimjhodek_nmi(cop0, pc);
    }
    let vector = exception::vector(read(cop0, Register::STATUS), kind);
    record(cop0, exc, pc, in_delay_slot);
    if exception::writes_bad_vaddr(exc) {
        record_address(cop0, bad_vaddr);
        enter(cop0);
        return taking(vector, EPILOGUE_STALL);
    }
    enter(cop0);
    taking(vector, EPILOGUE_STALL)
}

// The same of a refill. Its code, its address and its vector are known then, and the compiler leaves no choice between exceptions.
#[tactic(auto, unfolding(crate::specs::Registers::is_special, cop0::specs::Registers::among))]
fn refill(
    cop0: &mut [u64; 38],
    store: bool,
    wide: bool,
    pc: u64,
    in_delay_slot: bool,
    bad_vaddr: u64,
) -> Taken
    ensures { (result ≡ taken_of (answered (dispatch_values
        (dispatch_of (cop0_in cop0.old) (TlbRefill store wide) pc in_delay_slot bad_vaddr).dispatch)))
        × (cop0.new ≡ put_in cop0.old
        (dispatch_of (cop0_in cop0.old) (TlbRefill store wide) pc in_delay_slot bad_vaddr).cop0) }
{
    let refill = Exception::TlbRefill { store, wide };
    let kind = exception::vector_kind_of(refill);
    let vector = exception::vector(read(cop0, Register::STATUS), kind);
    record(cop0, refill, pc, in_delay_slot);
    record_address(cop0, bad_vaddr);
    enter(cop0);
    taking(vector, EPILOGUE_STALL)
}

fn taking(vector: u64, stall_cycles: u32) -> Taken
    ensures { result ≡ taken_of (answered (vector ∷ stall_cycles ∷ [])) }
{
    Taken {
        refused: 0,
        stall_cycles,
        vector,
    }
}

// The exception that a number names, with the values that it holds.
fn exception_of(exc: Exc) -> Option<Exception>
    ensures { result ≡ slice_get (exceptions_of exc) exc.number }
{
    let store = exc.store;
    let wide = exc.wide;
    let unit = exc.unit;
    match exc.number {
        0 => Some(Exception::Interrupt),
        1 => Some(Exception::AddressError { store }),
        2 => Some(Exception::Overflow),
        3 => Some(Exception::Syscall),
        4 => Some(Exception::Breakpoint),
        5 => Some(Exception::Trap),
        6 => Some(Exception::ReservedInstruction),
        7 => Some(Exception::CoprocessorReserved { unit }),
        8 => Some(Exception::CoprocessorUnusable { unit }),
        9 => Some(Exception::Nmi),
        10 => Some(Exception::TlbRefill { store, wide }),
        11 => Some(Exception::TlbInvalid { store }),
        12 => Some(Exception::TlbModified),
        13 => Some(Exception::FloatingPoint),
        _ => None,
    }
}

// The vector that a number names.
fn kind_of(kind: u8) -> Option<VectorKind>
    ensures { result ≡ slice_get kinds kind }
{
    match kind {
        0 => Some(VectorKind::General),
        1 => Some(VectorKind::TlbRefill),
        2 => Some(VectorKind::XtlbRefill),
        3 => Some(VectorKind::Reset),
        _ => None,
    }
}

// The numbers that cross are written out, so that they do not hang on the order of the cases.
fn kind_number(kind: VectorKind) -> u64
    ensures { result ≡ kind_number kind }
{
    match kind {
        VectorKind::General => 0,
        VectorKind::TlbRefill => 1,
        VectorKind::XtlbRefill => 2,
        VectorKind::Reset => 3,
    }
}
