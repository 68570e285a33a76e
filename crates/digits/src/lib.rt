// Hexadecimal digits: the value of one, the number that a word of them writes, and a number's digits.
#![tactic(auto)]

mod reading;
mod writing;

pub use reading::{digit, parse};
pub use writing::put;
