// The memory of the caches, and what is read from it and put into it as it stands.
ghost use Rattle.std.specs.Prelude.{◌+◌, ◌≤◌, length};

// The bytes of a cache's lines, and their tag words.
#[derive(Drop)]
pub struct Memory<const BYTES: usize> {
    pub lines: [u8; BYTES],
    pub tags: [u32; 512],
}

pub type DataCache = Memory<8192>;

pub type InstructionCache = Memory<16384>;

impl<const BYTES: usize> Memory<BYTES> {
    // All zero, as a fresh cache is.
    pub(crate) fn new() -> Memory<BYTES> {
        Memory {
            lines: [0; BYTES],
            tags: [0; 512],
        }
    }
}

// The line of N bytes that starts at `at`.
pub(crate) fn line_at<const N: usize>(lines: &[u8], at: usize) -> [u8; N]
    requires { at + N ≤ length lines.now }
{
    let mut line = [0; N];
    line.copy_from_slice(&lines[at..at + N]);
    line
}

// The N bytes of a line's words, of each the highest first.
pub(crate) fn line_of<const N: usize>(words: &[u64]) -> [u8; N] {
    let mut line = [0; N];
    let (places, _) = line.as_chunks_mut::<8>();
    for (place, word) in places.iter_mut().zip(words) {
        *place = word.to_be_bytes();
    }
    line
}
