// Taking an exception.
ghost use Rattle.std.specs.Prelude.{◌≡◌};
ghost use Rattle.exception.specs.Taking.{entered, nmi_status_of, nmi_of, dispatch_of};

use crate::epilogue::{Dispatch, Dispatched, EPILOGUE_STALL};
use crate::kinds::Exception;
use crate::vectors::VectorKind;
use crate::{epilogue, kinds, vectors};
use cop0::Cop0;

// Takes an exception (figure 6-14): records its cause and, where it has one, its faulting address, sets EXL, and tells where
// to fetch next. `pc` is the address of the instruction that faulted. Where it faulted is told one by one, here and above, as in the
// original and in the exports.
#[tactic(auto, using(crate::proofs::Answers::kind_one, crate::proofs::Answers::reset_tested), unfolding(crate::specs::Taking::dispatch_of, crate::specs::Taking::taken_of))]
pub fn dispatch(
    cop0: Cop0,
    exc: Exception,
    pc: u64,
    in_delay_slot: bool,
    bad_vaddr: u64,
) -> Dispatched
    ensures { result ≡ dispatch_of cop0 exc pc in_delay_slot bad_vaddr }
{
    let kind = kinds::vector_kind_of(exc);
    // NMI alone takes the Reset vector, and does nothing of what follows.
    if kind == VectorKind::Reset {
        return nmi(cop0, pc);
    }
    let vector = vectors::vector(cop0.read(Cop0::STATUS), kind);
    let caused = epilogue::record(cop0, exc, pc, in_delay_slot);
    if kinds::writes_bad_vaddr(exc) {
        let faulted = epilogue::record_address(caused, bad_vaddr);
        return entering(vector, epilogue::enter(faulted));
    }
    entering(vector, epilogue::enter(caused))
}

// The non-maskable interrupt (6.4.6). It keeps every register but ErrorEPC and four bits of Status: ERL, and SR, by which a
// handler knows it from a cold reset, and BEV and TS as after a reset. It belongs to no instruction, so that there is no delay
// slot to step back from.
#[tactic(auto, unfolding(crate::specs::Taking::nmi_of))]
pub fn nmi(cop0: Cop0, pc: u64) -> Dispatched
    ensures { result ≡ nmi_of cop0 pc }
{
    let status = cop0.read(Cop0::STATUS);
    let after = cop0
        .set_hardware(Cop0::ERROR_EPC, pc)
        .set_hardware(Cop0::STATUS, nmi_status(status));
    entering(vectors::vector(status, VectorKind::Reset), after)
}

// TS (21) off; ERL (2), SR (20) and BEV (22) on.
pub fn nmi_status(status: u64) -> u64
    ensures { result ≡ nmi_status_of status }
{
    let without_ts = bits::with_field(status, 21, 21, 0);
    let with_erl = bits::with_field(without_ts, 2, 2, 1);
    let with_sr = bits::with_field(with_erl, 20, 20, 1);
    bits::with_field(with_sr, 22, 22, 1)
}

fn entering(vector: u64, cop0: Cop0) -> Dispatched
    ensures { result ≡ entered vector cop0 }
{
    Dispatched {
        dispatch: Dispatch {
            vector,
            stall_cycles: EPILOGUE_STALL,
        },
        cop0,
    }
}
