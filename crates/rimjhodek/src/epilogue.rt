// What an exception writes, in words: a register at a time, under its mask.
ghost use Rattle.std.specs.Prelude.{◌≡◌};
ghost use Rattle.exception.specs.Epilogue.{recorded, addressed, handling};
ghost use Rattle.rimjhodek.specs.Registers.{cop0_in, put_in};

use crate::register::Register;
use crate::registers::{read, set_hardware};
use exception::Exception;

// The cause; and of the first exception also where to return to. A nested one leaves EPC and BD (6.3.7).
#[tactic(auto, unfolding(crate::specs::Registers::is_special, cop0::specs::Registers::among))]
pub(crate) fn record(cop0: &mut [u64; 38], exc: Exception, pc: u64, in_delay_slot: bool)
    ensures { cop0.new ≡ put_in cop0.old (recorded (cop0_in cop0.old) exc pc in_delay_slot) }
{
    let new_cause = exception::cause(read(cop0, Register::CAUSE), exc);
    if bits::field(read(cop0, Register::STATUS), 1, 1) == 1 {
        set_hardware(cop0, Register::CAUSE, new_cause);
        return;
    }
    set_hardware(cop0, Register::EPC, exception::epc(pc, in_delay_slot));
    set_hardware(
        cop0,
        Register::CAUSE,
        bits::with_field(new_cause, 31, 31, in_delay_slot as u64),
    );
}

// The faulting address, and the fields of it that a handler walks its page table by.
#[tactic(auto, unfolding(crate::specs::Registers::is_special, cop0::specs::Registers::among))]
pub(crate) fn record_address(cop0: &mut [u64; 38], bad_vaddr: u64)
    ensures { cop0.new ≡ put_in cop0.old (addressed (cop0_in cop0.old) bad_vaddr) }
{
    let new_context = exception::context(read(cop0, Register::CONTEXT), bad_vaddr);
    let new_xcontext = exception::xcontext(read(cop0, Register::XCONTEXT), bad_vaddr);
    let new_entry_hi = exception::entry_hi(read(cop0, Register::ENTRY_HI), bad_vaddr);
    set_hardware(cop0, Register::BAD_VADDR, bad_vaddr);
    set_hardware(cop0, Register::CONTEXT, new_context);
    set_hardware(cop0, Register::XCONTEXT, new_xcontext);
    set_hardware(cop0, Register::ENTRY_HI, new_entry_hi);
}

// EXL: kernel mode, with interrupts off.
#[tactic(auto, unfolding(crate::specs::Registers::is_special, cop0::specs::Registers::among, exception::specs::Epilogue::handling))]
pub(crate) fn enter(cop0: &mut [u64; 38])
    ensures { cop0.new ≡ put_in cop0.old (handling (cop0_in cop0.old)) }
{
    let status = read(cop0, Register::STATUS);
    set_hardware(cop0, Register::STATUS, bits::with_field(status, 1, 1, 1));
}
