// What other languages link: each operation over state that the caller owns and lends as plain words. C reads the answers, so
// that numbers and flags stand in them for enums and Options. What the crates below do with a record is done here on words,
// since a record made of them costs more than the operation.
#![tactic(auto)]

mod answers;
mod clock;
mod dcache;
mod epilogue;
mod exceptions;
mod icache;
mod interrupts;
mod masks;
mod modes;
mod moves;
mod places;
mod refusals;
mod register;
mod registers;
mod sessions;
mod table;
mod translation;
mod words;

pub use answers::{Eviction, Flag, Number, Plan};
pub use dcache::{DataLine, DataPlan};
pub use exceptions::{Exc, Taken};
pub use icache::InstructionLine;
pub use modes::{By, Granted, Reached};
pub use table::Looked;
