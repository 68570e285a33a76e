// Exceptions: their codes and vectors, and what taking one and returning from one do to the registers.
#![tactic(auto)]

mod epilogue;
pub mod exc_code;
mod kinds;
mod returning;
mod taking;
mod vectors;

pub use epilogue::{Dispatch, Dispatched, EPILOGUE_STALL, cause, context, entry_hi, epc, xcontext};
pub use kinds::{Exception, exc_code_of, vector_kind_of, writes_bad_vaddr};
pub use returning::{Returned, eret};
pub use taking::{dispatch, nmi, nmi_status};
pub use vectors::{VectorKind, vector};
