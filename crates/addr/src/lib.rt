// Virtual to physical: the segments of each mode, the access that Status asks for, and translation through the TLB.
#![tactic(auto)]

mod access;
mod refusal;
mod segments;
mod translate;

pub use access::{Access, Mode};
pub use refusal::Refusal;
pub use segments::{Cached, Segment, within};
pub use translate::{Physical, TranslateError, Translation, translate_via};
