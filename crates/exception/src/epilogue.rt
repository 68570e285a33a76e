// What the processor records when it takes an exception, register by register.
ghost use Rattle.std.specs.Prelude.{◌≡◌};
ghost use Rattle.exception.specs.Epilogue.{cause_of, epc_of, context_of, xcontext_of, entry_hi_of, recorded, addressed, handling};

use crate::kinds;
use crate::kinds::Exception;
use cop0::Cop0;

#[repr(C)]
#[derive(Clone, Copy)]
pub struct Dispatch {
    // Where to fetch next.
    pub vector: u64,
    // The pipeline's cycles that the exception costs.
    pub stall_cycles: u32,
}

// The dispatch, and the registers after it.
#[derive(Clone, Copy)]
pub struct Dispatched {
    pub dispatch: Dispatch,
    pub cop0: Cop0,
}

// The stall when an exception is taken (4.7).
pub const EPILOGUE_STALL: u32 = 2;

// ExcCode and CE. The first exception also records where to return to, in EPC and BD; a nested one (EXL is 1 already) leaves
// both, or the handler that it interrupts could never return (6.3.7).
#[tactic(auto, unfolding(crate::specs::Epilogue::recorded))]
pub(crate) fn record(cop0: Cop0, exc: Exception, pc: u64, in_delay_slot: bool) -> Cop0
    ensures { result ≡ recorded cop0 exc pc in_delay_slot }
{
    let new_cause = cause(cop0.read(Cop0::CAUSE), exc);
    if bits::field(cop0.read(Cop0::STATUS), 1, 1) == 1 {
        return cop0.set_hardware(Cop0::CAUSE, new_cause);
    }
    let with_bd = bits::with_field(new_cause, 31, 31, in_delay_slot as u64);
    cop0.set_hardware(Cop0::EPC, epc(pc, in_delay_slot))
        .set_hardware(Cop0::CAUSE, with_bd)
}

// The faulting address, and the fields of it that a handler walks its page table by. Address errors write all four registers
// too, as the hardware was seen to do, although no TLB was asked.
#[tactic(auto, unfolding(crate::specs::Epilogue::addressed))]
pub(crate) fn record_address(cop0: Cop0, bad_vaddr: u64) -> Cop0
    ensures { result ≡ addressed cop0 bad_vaddr }
{
    let new_context = context(cop0.read(Cop0::CONTEXT), bad_vaddr);
    let new_xcontext = xcontext(cop0.read(Cop0::XCONTEXT), bad_vaddr);
    let new_entry_hi = entry_hi(cop0.read(Cop0::ENTRY_HI), bad_vaddr);
    cop0.set_hardware(Cop0::BAD_VADDR, bad_vaddr)
        .set_hardware(Cop0::CONTEXT, new_context)
        .set_hardware(Cop0::XCONTEXT, new_xcontext)
        .set_hardware(Cop0::ENTRY_HI, new_entry_hi)
}

// EXL: kernel mode, with interrupts off.
#[tactic(auto, unfolding(crate::specs::Epilogue::handling))]
pub(crate) fn enter(cop0: Cop0) -> Cop0
    ensures { result ≡ handling cop0 }
{
    cop0.set_hardware(
        Cop0::STATUS,
        bits::with_field(cop0.read(Cop0::STATUS), 1, 1, 1),
    )
}

// ExcCode (6..2) and CE (29..28), which is written with every exception: a unit left from an earlier one would be read as this
// one's.
pub fn cause(old: u64, exc: Exception) -> u64
    ensures { result ≡ cause_of old exc }
{
    let with_code = bits::with_field(old, 6, 2, kinds::exc_code_of(exc));
    bits::with_field(with_code, 29, 28, kinds::unit_of(exc) as u64)
}

// Where to return to: an instruction in a delay slot is run again from its branch.
pub fn epc(pc: u64, in_delay_slot: bool) -> u64
    ensures { result ≡ epc_of pc in_delay_slot }
{
    if in_delay_slot {
        return pc.wrapping_sub(4);
    }
    pc
}

// BadVPN2 (22..4) under the page table's base.
pub fn context(old: u64, bad_vaddr: u64) -> u64
    ensures { result ≡ context_of old bad_vaddr }
{
    bits::with_field(old, 22, 4, bits::field(bad_vaddr, 31, 13))
}

// R (32..31) and BadVPN2 (30..4) under the page table's base.
pub fn xcontext(old: u64, bad_vaddr: u64) -> u64
    ensures { result ≡ xcontext_of old bad_vaddr }
{
    let with_page = bits::with_field(old, 30, 4, bits::field(bad_vaddr, 39, 13));
    bits::with_field(with_page, 32, 31, bits::field(bad_vaddr, 63, 62))
}

// R (63..62) and VPN2 (39..13), in place; ASID stays.
pub fn entry_hi(old: u64, bad_vaddr: u64) -> u64
    ensures { result ≡ entry_hi_of old bad_vaddr }
{
    let with_page = bits::with_field(old, 39, 13, bits::field(bad_vaddr, 39, 13));
    bits::with_field(with_page, 63, 62, bits::field(bad_vaddr, 63, 62))
}
