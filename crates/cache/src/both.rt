// What both caches do alike: over the size of a line, the bytes of all lines and the PState of a valid line.
ghost use Rattle.std.specs.Prelude.{◌≡◌, ◌+◌, ◌*◌, ◌%◌, ◌≤◌, length, replicate};
ghost use Rattle.bits.specs.Told.{refused};
ghost use Rattle.tags.specs.Places.{tagged};
ghost use Rattle.cache.specs.Answers.{refusal_number, lent_if, told_done, told_asked, told_value, told_writeback};
ghost use Rattle.cache.specs.Both.{sized, both_told, fresh_part, install_bytes, install_tags, hits_told, load_told, resident_told, tags_told, store_tags, evicted_if, bytes_if};

use crate::answers::{Refusal, Writeback};
use lines::bytes;
use tags::{tag_array, tag_word};

// Is the array of tag words whole? Nothing is touched where it is not.
pub(crate) fn check_tags(tags: &[u32]) -> Result<(), Refusal>
    ensures { result ≡ lent_if (tagged tags.now) }
{
    if tag_array::is_whole(tags) {
        Ok(())
    } else {
        Err(Refusal::Lent)
    }
}

// Has each lent part its length?
#[tactic(auto, unfolding(crate::specs::Both::sized))]
pub(crate) fn check_sized<const BYTES: usize>(lines: &[u8], tags: &[u32]) -> Result<(), Refusal>
    ensures { result ≡ lent_if (sized BYTES lines.now tags.now) }
{
    if lines.len() != BYTES {
        return Err(Refusal::Lent);
    }
    check_tags(tags)
}

// A cache with every line invalid.
#[tactic(auto, unfolding(crate::specs::Both::both_told, crate::specs::Both::fresh_part))]
pub(crate) fn fresh<const BYTES: usize>(lines: &mut [u8], tags: &mut [u32]) -> Result<(), Refusal>
    ensures { (told_done result ≡ both_told BYTES lines.old tags.old)
        × (lines.new ≡ fresh_part BYTES lines.old tags.old lines.old)
        × (tags.new ≡ fresh_part BYTES lines.old tags.old tags.old) }
{
    check_sized::<BYTES>(lines, tags)?;
    bytes::clear(lines);
    tag_array::clear(tags);
    Ok(())
}

// Puts a line that was read from memory into its place.
#[tactic(auto, using(crate::proofs::PartLaws::all_there, crate::proofs::PartLaws::line_inside), unfolding(crate::specs::Both::both_told, crate::specs::Both::install_bytes, crate::specs::Both::install_tags, lines::specs::Bytes::copied))]
pub(crate) fn install<const SIZE: u32, const BYTES: usize>(
    lines: &mut [u8],
    tags: &mut [u32],
    addr: u32,
    line: &[u8],
) -> Result<(), Refusal>
    requires { (length line.now ≡ SIZE) × (512 * SIZE ≤ BYTES) }
    ensures { (told_done result ≡ both_told BYTES lines.old tags.old)
        × (lines.new ≡ install_bytes SIZE BYTES lines.old tags.old addr line.now)
        × (tags.new ≡ install_tags SIZE BYTES lines.old tags.old addr) }
{
    check_sized::<BYTES>(lines, tags)?;
    bytes::copy(lines, tag_array::start(addr, SIZE), line);
    tag_array::replace(tags, addr, SIZE, tag_word::taken(addr, false));
    Ok(())
}

#[tactic(auto, unfolding(crate::specs::Both::hits_told))]
pub(crate) fn hits<const SIZE: u32>(tags: &[u32], addr: u32) -> Result<bool, Refusal>
    ensures { told_asked result ≡ hits_told SIZE tags.now addr }
{
    check_tags(tags)?;
    Ok(tag_word::is_hit(tag_array::word_for(tags, addr, SIZE), addr))
}

// `Index_Load_Tag`.
#[tactic(auto, unfolding(crate::specs::Both::load_told))]
pub(crate) fn load_tag<const SIZE: u32, const STATE: u8>(
    tags: &[u32],
    addr: u32,
) -> Result<u64, Refusal>
    ensures { told_value result ≡ load_told SIZE STATE tags.now addr }
{
    check_tags(tags)?;
    Ok(tag_word::tag_lo(tag_array::word_for(tags, addr, SIZE), STATE) as u64)
}

// `Index_Store_Tag`.
#[tactic(auto, unfolding(crate::specs::Both::tags_told, crate::specs::Both::store_tags))]
pub(crate) fn store_tag<const SIZE: u32, const STATE: u8>(
    tags: &mut [u32],
    addr: u32,
    tag_lo: u32,
) -> Result<(), Refusal>
    ensures { (told_done result ≡ tags_told tags.old) × (tags.new ≡ store_tags SIZE STATE tags.old addr tag_lo) }
{
    check_tags(tags)?;
    tag_array::replace(tags, addr, SIZE, tag_word::stored(tag_lo, STATE));
    Ok(())
}

// The address that line `index`, modulo 512, came from.
#[tactic(auto, unfolding(crate::specs::Both::resident_told))]
pub(crate) fn resident_addr<const SIZE: u32>(tags: &[u32], index: usize) -> Result<u64, Refusal>
    ensures { told_value result ≡ resident_told tags.now (index % 512) (index % 512 * SIZE) }
{
    check_tags(tags)?;
    let i = index % 512;
    Ok(tag_word::resident(tag_array::word_at(tags, i), i * SIZE as usize) as u64)
}

// The line that starts there, if it goes to memory.
#[tactic(auto, unfolding(lines::specs::Bytes::line_if))]
pub(crate) fn writeback<const N: usize>(
    lines: &[u8],
    word: u32,
    start: usize,
    goes: bool,
) -> Writeback<N>
    requires { start + N ≤ length lines.now }
    ensures { (told_writeback result.answer ≡ evicted_if goes word start) × (result.«data» ≡ bytes_if N goes lines.now start) }
{
    Writeback {
        answer: Ok(goes.then_some(tag_word::resident(word, start))),
        data: bytes::line(lines, start, goes),
    }
}

pub(crate) fn refused_writeback<const N: usize>(refusal: Refusal) -> Writeback<N>
    ensures { (told_writeback result.answer ≡ refused (refusal_number refusal)) × (result.«data» ≡ replicate N 0) }
{
    Writeback {
        answer: Err(refusal),
        data: [0; N],
    }
}
