// Tag words: bits 19..0 are the tag, which is the physical frame number, bit 20 is valid, and bit 21, of the data cache alone, is
// dirty.
ghost use Rattle.std.specs.Prelude.{◌≡◌, true, ◌<◌, ◌^◌};
ghost use Rattle.tags.specs.Words.{tag_of, word_tag, is_valid, is_dirty, word_of, hit_of, leaves_of, displaced_of, flushed_word, tag_lo_of, stored_of, invalidated};
ghost use Rattle.tags.specs.Places.{resident_of};

// Does the line with this word hold the address? Below the dirty flag the word is then that of a line which the address has taken.
#[tactic(auto, using(crate::proofs::WordLaws::hit_at_once))]
pub fn is_hit(word: u32, addr: u32) -> bool
    ensures { result ≡ hit_of word addr }
{
    word % 0x20_0000 == taken(addr, false)
}

// Has the line bytes that memory does not? Then it is written back when it goes.
#[tactic(auto, unfolding(crate::specs::Words::leaves_of))]
pub fn leaves(word: u32) -> bool
    ensures { result ≡ leaves_of word }
{
    valid(word) && dirty(word)
}

// Does it leave for another address?
#[tactic(auto, unfolding(crate::specs::Words::displaced_of))]
pub fn displaced(word: u32, addr: u32) -> bool
    ensures { result ≡ displaced_of word addr }
{
    leaves(word) && tag(word) != tag_of(addr)
}

// Where the line with this word came from: a write-back goes there, and not to the address that evicts it.
pub fn resident(word: u32, start: usize) -> u32
    ensures { result ≡ resident_of word start }
{
    tag(word) * 4096 + (start % 4096) as u32
}

// The word of a line that an address takes.
pub fn taken(addr: u32, is_dirty: bool) -> u32
    ensures { result ≡ word_of (tag_of addr) true is_dirty }
{
    word(tag_of(addr), true, is_dirty)
}

// A word with dirty set or cleared.
pub fn marked(old: u32, is_dirty: bool) -> u32
    ensures { result ≡ word_of (word_tag old) (is_valid old) is_dirty }
{
    word(tag(old), valid(old), is_dirty)
}

// Valid cleared, and dirty with it; the tag stays, and can be loaded.
pub fn invalid(old: u32) -> u32
    ensures { result ≡ invalidated old }
{
    word(tag(old), false, false)
}

// The word of a line that is flushed: as it was, where neither flag is asked for.
pub fn flushed(old: u32, invalidate: bool, clean: bool) -> u32
    ensures { result ≡ flushed_word old invalidate clean }
{
    if invalidate {
        return invalid(old);
    }
    if clean {
        return marked(old, false);
    }
    old
}

// TagLo of a line. Dirty has no place in it, so a clean line and a dirty one load alike.
#[tactic(auto, unfolding(crate::specs::Words::tag_lo_of))]
pub fn tag_lo(word: u32, state: u8) -> u32
    ensures { result ≡ tag_lo_of state word }
{
    if valid(word) {
        return tag(word) * 256 + state as u32 * 64;
    }
    tag(word) * 256
}

// The word that a TagLo stores: valid for the cache's own PState, and for no other.
#[tactic(auto, unfolding(crate::specs::Words::stored_of))]
pub fn stored(tag_lo: u32, state: u8) -> u32
    ensures { result ≡ stored_of state tag_lo }
{
    let is_valid = tag_lo / 64 % 4 == state as u32;
    word(tag_lo / 256 % 0x10_0000, is_valid, false)
}

// The tag of an address: bits 31..12.
fn tag_of(addr: u32) -> u32
    ensures { result ≡ tag_of addr }
{
    addr / 4096
}

fn tag(word: u32) -> u32
    ensures { result ≡ word_tag word }
{
    word % 0x10_0000
}

fn valid(word: u32) -> bool
    ensures { result ≡ is_valid word }
{
    word / 0x10_0000 % 2 == 1
}

fn dirty(word: u32) -> bool
    ensures { result ≡ is_dirty word }
{
    word / 0x20_0000 % 2 == 1
}

// A word as it is stored: its other bits are zero.
fn word(tag: u32, is_valid: bool, is_dirty: bool) -> u32
    requires { tag < 2 ^ 20 }
    ensures { result ≡ word_of tag is_valid is_dirty }
{
    tag + is_valid as u32 * 0x10_0000 + is_dirty as u32 * 0x20_0000
}
