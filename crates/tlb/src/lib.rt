// The joint TLB and its instruction micro-TLB.
#![tactic(auto)]

mod entries;
mod micro;
mod moves;
mod table;

pub use entries::{Entry, PageEntry, TlbFault, Translated};
pub use micro::ItlbProbed;
pub use moves::{entry_from, page_from};
pub use table::{Looked, Tlb};
