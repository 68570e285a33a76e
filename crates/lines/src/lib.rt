// The lent bytes of a cache's lines. A place that is not within them is no mistake: nothing is written there, and zeros are read.
#![tactic(auto)]

pub mod access;
pub mod bytes;
