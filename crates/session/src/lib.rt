// A room member's state: the registers and the TLB together, and the operations that a room's inputs are made of.
#![tactic(auto)]

mod clock;
mod exceptions;
mod op;
mod registers;
mod session;
mod step;
mod translation;

pub use op::{Answer, Op};
pub use session::{Session, Stepped};
