// COP0, the VR4300's system control coprocessor: its register file.
#![tactic(auto)]

mod access;
mod advance;
mod clock;
mod in_place;
mod interrupt;
mod random;
mod refusal;
mod registers;

pub use access::Cop0Op;
pub use advance::Advanced;
pub use clock::Polled;
pub use in_place::advance_in_place;
pub use refusal::Refusal;
pub use registers::{Cop0, is_wide};
