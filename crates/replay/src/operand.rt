// The operands of a line.
use crate::words::Words;

// The most operands that an operation takes.
pub const MOST: usize = 6;

// How many operands there are, and their numbers, if all are numbers. One past the most has no place, and 0 stands where none is:
// an array and a count, since nothing allocates and a line may have more words than an operation has operands.
#[derive(Clone, Copy)]
pub(crate) struct Operands {
    pub count: usize,
    pub values: Option<[u64; MOST]>,
}

impl Operands {
    pub(crate) fn of(words: Words) -> Operands {
        Operands {
            count: words.count(),
            values: numbers(words),
        }
    }
}

fn numbers(words: Words) -> Option<[u64; MOST]> {
    let mut values = [0; MOST];
    for (value, word) in values.iter_mut().zip(words) {
        *value = digits::parse(word)?;
    }
    Some(values)
}

// What an operand of 8 bits, of 32 bits and a flag hold. One over its limit has its line turned away, so that a `try_from` would
// have an error for nothing.
pub fn byte(value: u64) -> u8 {
    (value % 256) as u8
}

pub fn word(value: u64) -> u32 {
    (value % 0x1_0000_0000) as u32
}

pub fn flag(value: u64) -> bool {
    value == 1
}
