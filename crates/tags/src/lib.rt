// The tag words of a cache, 512 of them in a lent array. What a word says and where an address has its own is the same in both
// caches, over the size of a line and the PState of a valid one.
#![tactic(auto)]

pub mod tag_array;
pub mod tag_word;
