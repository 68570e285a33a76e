// The two primary caches, over lent memory: a buffer of bytes and an array of 512 tag words each, two parameters of an operation
// and no struct, since the C interface lends them so.
#![tactic(auto)]

mod answers;
mod both;
pub mod dcache;
pub mod icache;

pub use answers::{MissPlan, Plan, Refusal, Writeback};
