// The lines of a text.
ghost use Rattle.std.specs.Prelude.{◌≡◌, length, MatchOption};
ghost use Rattle.std.specs.Iterator.{at_most};
ghost use Rattle.replay.specs.Line.{line_end_of, unended_of, first_line, past_line, without_end_of};

// The lines that are left of a text, each with its end. A last line that no `\n` ends counts; nothing after the last `\n` is no
// line.
#[derive(Clone, Copy)]
pub(crate) struct Lines<'a>(pub &'a [u8]);

impl<'a> Iterator for Lines<'a> {
    type Item = &'a [u8];

    ghost next_gives = { λ s r t. MatchOption r (length s.0.now ≡ 0) (λ line. (line.now ≡ first_line s.0.now) × (t.0.now ≡ past_line s.0.now)) };

    ghost remaining = { λ s. at_most (length s.0.now) };

    fn next(&mut self) -> Option<&'a [u8]> {
        let text = self.0;
        if text.is_empty() {
            return None;
        }
        let (line, left) = text
            .split_at_checked(unended(text) + 1)
            .unwrap_or((text, &[]));
        self.0 = left;
        Some(line)
    }
}

// How many bytes stand before a text's first line end.
fn unended(text: &[u8]) -> usize
    ensures { result ≡ length (unended_of text.now) }
{
    text.iter().take_while(|b| !is_end(**b)).count()
}

fn is_end(b: u8) -> bool
    ensures { result ≡ line_end_of b }
{
    b == b'\n'
}

// A line without its `\n` and without the one `\r` that may stand right before that. A line that the text's end cuts off has no
// `\n`.
#[tactic(auto, unfolding(crate::specs::Line::without_end_of))]
pub(crate) fn without_end(line: &[u8]) -> &[u8]
    ensures { result.now ≡ without_end_of line.now }
{
    let Some(words) = line.strip_suffix(b"\n") else {
        return line;
    };
    words.strip_suffix(b"\r").unwrap_or(words)
}
