// The instruction cache: 16 KiB in 512 lines of 32 bytes, which the processor does not write. What it does as the data cache does
// stays a function here, a line over `both`, since the Rust original has it by that name.
ghost use Rattle.std.specs.Prelude.{◌≡◌, ◌*◌, ◌%◌};
ghost use Rattle.cache.specs.Answers.{told_done, told_asked, told_value, told_writeback};
ghost use Rattle.cache.specs.Both.{hits_told, load_told, resident_told, tags_told, store_tags, both_told, fresh_part, install_bytes, install_tags};
ghost use Rattle.cache.specs.Instruction.{word_told, invalidate_tags, hit_invalidate_tags, flush_told, flush_bytes};

use crate::answers::{Refusal, Writeback};
use crate::both;
use lines::{access, bytes};
use tags::{tag_array, tag_word};

// All its bytes.
const BYTES: usize = 16384;

// PState of a valid line.
const VALID_STATE: u8 = 2;

// A cache with every line invalid: what is lent is zeroed.
pub fn new(lines: &mut [u8], tags: &mut [u32]) -> Result<(), Refusal>
    ensures { (told_done result ≡ both_told 16384 lines.old tags.old)
        × (lines.new ≡ fresh_part 16384 lines.old tags.old lines.old)
        × (tags.new ≡ fresh_part 16384 lines.old tags.old tags.old) }
{
    both::fresh::<BYTES>(lines, tags)
}

// Does the address hit a valid line?
pub fn hits(tags: &[u32], addr: u32) -> Result<bool, Refusal>
    ensures { told_asked result ≡ hits_told 32 tags.now addr }
{
    both::hits::<32>(tags, addr)
}

// The instruction at an address, the highest byte first. The caller has made the line resident: no hit is tested.
#[tactic(auto, unfolding(crate::specs::Instruction::word_told, lines::specs::Bytes::number_at))]
pub fn read_word(lines: &[u8], addr: u32) -> Result<u64, Refusal>
    ensures { told_value result ≡ word_told lines.now addr }
{
    if lines.len() != BYTES {
        return Err(Refusal::Lent);
    }
    if 28 < addr % 32 {
        return Err(Refusal::Access(access::Refusal::Crossing));
    }
    let at = tag_array::start(addr, 32) + (addr % 32) as usize;
    Ok(bytes::big_endian(lines, at, 4))
}

// Puts a line that was read from memory into its place. Nothing has to be written back first, since no line is dirty.
pub fn install(lines: &mut [u8], tags: &mut [u32], addr: u32, line: [u8; 32]) -> Result<(), Refusal>
    ensures { (told_done result ≡ both_told 16384 lines.old tags.old)
        × (lines.new ≡ install_bytes 32 16384 lines.old tags.old addr line)
        × (tags.new ≡ install_tags 32 16384 lines.old tags.old addr) }
{
    both::install::<32, BYTES>(lines, tags, addr, &line)
}

// `Index_Load_Tag`, in TagLo's form.
pub fn load_tag(tags: &[u32], addr: u32) -> Result<u64, Refusal>
    ensures { told_value result ≡ load_told 32 2 tags.now addr }
{
    both::load_tag::<32, VALID_STATE>(tags, addr)
}

// `Index_Store_Tag`.
pub fn store_tag(tags: &mut [u32], addr: u32, tag_lo: u32) -> Result<(), Refusal>
    ensures { (told_done result ≡ tags_told tags.old) × (tags.new ≡ store_tags 32 2 tags.old addr tag_lo) }
{
    both::store_tag::<32, VALID_STATE>(tags, addr, tag_lo)
}

// `Index_Invalidate`: the line of the address, whatever it holds.
#[tactic(auto, unfolding(crate::specs::Both::tags_told, crate::specs::Instruction::invalidate_tags))]
pub fn invalidate_index(tags: &mut [u32], addr: u32) -> Result<(), Refusal>
    ensures { (told_done result ≡ tags_told tags.old) × (tags.new ≡ invalidate_tags tags.old addr) }
{
    both::check_tags(tags)?;
    let old = tag_array::word_for(tags, addr, 32);
    tag_array::replace(tags, addr, 32, tag_word::invalid(old));
    Ok(())
}

// `Hit_Invalidate`: the line of the address, if it holds it.
#[tactic(auto, unfolding(crate::specs::Both::tags_told, crate::specs::Instruction::hit_invalidate_tags))]
pub fn hit_invalidate(tags: &mut [u32], addr: u32) -> Result<(), Refusal>
    ensures { (told_done result ≡ tags_told tags.old) × (tags.new ≡ hit_invalidate_tags tags.old addr) }
{
    both::check_tags(tags)?;
    let old = tag_array::word_for(tags, addr, 32);
    if tag_word::is_hit(old, addr) {
        tag_array::replace(tags, addr, 32, tag_word::invalid(old));
    }
    Ok(())
}

// `Hit_Write_Back`: a line that holds the address goes to memory, which may have changed under it.
#[tactic(auto, using(crate::proofs::PartLaws::all_there), unfolding(crate::specs::Instruction::flush_told, crate::specs::Instruction::flush_bytes))]
pub fn flush_hit(lines: &[u8], tags: &[u32], addr: u32) -> Writeback<32>
    ensures { (told_writeback result.answer ≡ flush_told lines.now tags.now addr)
        × (result.«data» ≡ flush_bytes lines.now tags.now addr) }
{
    if let Err(refusal) = both::check_sized::<BYTES>(lines, tags) {
        return both::refused_writeback(refusal);
    }
    let word = tag_array::word_for(tags, addr, 32);
    let start = tag_array::start(addr, 32);
    both::writeback(lines, word, start, tag_word::is_hit(word, addr))
}

// The address that line `index`, modulo 512, came from.
pub fn resident_addr(tags: &[u32], index: usize) -> Result<u64, Refusal>
    ensures { told_value result ≡ resident_told tags.now (index % 512) (index % 512 * 32) }
{
    both::resident_addr::<32>(tags, index)
}
