// An entry of the TLB by its number, and by where it lies among the words.
ghost use Rattle.std.specs.Prelude.{◌≡◌, ◌%◌, ◌<◌};

// The number of an entry, below 32.
#[derive(Clone, Copy)]
pub(crate) struct Index {
    pub(crate) number: usize,
    ghost below: { number < 32 },
}

impl Index {
    // By the low five bits of a number.
    pub(crate) fn of(n: usize) -> Index
        ensures { result.number ≡ n % 32 }
    {
        Index { number: n % 32 }
    }
}

// The first of an entry's four words: four times its number, so that no second count goes along.
#[derive(Clone, Copy)]
pub(crate) struct Place {
    pub(crate) at: usize,
    ghost below: { at < 128 },
    ghost whole: { at % 4 ≡ 0 },
}
