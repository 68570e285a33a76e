// The lent array of tag words: the word of a line and its replacement, over the size of a line. The size is an argument and no const
// parameter: each function answers for every size, 0 among them.
ghost use Rattle.std.specs.Prelude.{◌≡◌, length, replicate};
ghost use Rattle.tags.specs.Places.{tagged, index_of, start_of, word_at, word_for, tags_with};

// Lines of either cache.
const LINES: usize = 512;

// Has the array a word for each line?
pub fn is_whole(tags: &[u32]) -> bool
    ensures { result ≡ tagged tags.now }
{
    tags.len() == LINES
}

// The line of an address. A size of 0, which no cache has, gives line 0.
pub fn index(addr: u32, size: u32) -> usize
    ensures { result ≡ index_of size addr }
{
    if size == 0 {
        return 0;
    }
    (addr / size % 512) as usize
}

// Where its bytes start.
pub fn start(addr: u32, size: u32) -> usize
    ensures { result ≡ start_of size addr }
{
    index(addr, size) * size as usize
}

// The word of line `i`, and 0 past the end.
pub fn word_at(tags: &[u32], i: usize) -> u32
    ensures { result ≡ word_at tags.now i }
{
    tags.get(i).copied().unwrap_or(0)
}

// The word of the line of an address.
pub fn word_for(tags: &[u32], addr: u32, size: u32) -> u32
    ensures { result ≡ word_for size tags.now addr }
{
    word_at(tags, index(addr, size))
}

// Replaces it; past the end nothing changes.
pub fn replace(tags: &mut [u32], addr: u32, size: u32, word: u32)
    ensures { tags.new ≡ tags_with size tags.old addr word }
{
    let i = index(addr, size);
    // Of `get_mut` no contract says what the array holds afterwards.
    if i < tags.len() {
        tags[i] = word;
    }
}

pub fn clear(tags: &mut [u32])
    ensures { tags.new ≡ replicate (length tags.old) 0 }
{
    tags.fill(0);
}
