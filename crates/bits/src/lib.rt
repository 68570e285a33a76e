// Fields and masks of a word: the few operations on bits that every crate shares.
#![tactic(auto)]

mod extension;
mod fields;
mod masks;

pub use extension::{low32, sign_extend, zero_extend};
pub use fields::{field, with_field};
pub use masks::merge;
