// The words of a line.
ghost use Rattle.std.specs.Prelude.{◌≡◌, length, MatchOption};
ghost use Rattle.std.specs.Iterator.{at_most};
ghost use Rattle.replay.specs.Line.{blank_of, blanks_of, unbroken_of, from_word, first_word, past_word};

// The words that are left of a line, with spaces or tabs between them.
#[derive(Clone, Copy)]
pub(crate) struct Words<'a>(pub &'a [u8]);

impl<'a> Iterator for Words<'a> {
    type Item = &'a [u8];

    ghost next_gives = { λ s r t. MatchOption r (length (from_word s.0.now) ≡ 0) (λ word. (word.now ≡ first_word s.0.now) × (t.0.now ≡ past_word s.0.now)) };

    ghost remaining = { λ s. at_most (length s.0.now) };

    fn next(&mut self) -> Option<&'a [u8]> {
        let line = self.0;
        let rest = &line[blanks(line)..];
        if rest.is_empty() {
            return None;
        }
        let (word, left) = rest.split_at(unbroken(rest));
        self.0 = left;
        Some(word)
    }
}

// How many blanks a line begins with.
fn blanks(line: &[u8]) -> usize
    ensures { result ≡ length (blanks_of line.now) }
{
    line.iter().take_while(|b| is_blank(**b)).count()
}

// How many bytes stand before a line's first blank.
fn unbroken(line: &[u8]) -> usize
    ensures { result ≡ length (unbroken_of line.now) }
{
    line.iter().take_while(|b| !is_blank(**b)).count()
}

// A tab counts as a space.
fn is_blank(b: u8) -> bool
    ensures { result ≡ blank_of b }
{
    b == b' ' || b == b'\t'
}
