// The instruction cache: 16,384 bytes of lines and 512 tag words, both lent.
ghost use Rattle.std.specs.Prelude.{◌≡◌, ◌*◌, ◌%◌};
ghost use Rattle.tags.specs.Words.{hit_of};
ghost use Rattle.tags.specs.Places.{word_for};
ghost use Rattle.cache.specs.Both.{hits_told, load_told, resident_told, tags_told, store_tags, both_told, fresh_part, install_bytes, install_tags};
ghost use Rattle.cache.specs.Instruction.{word_told, invalidate_tags, hit_invalidate_tags, flush_told, flush_bytes};
ghost use Rattle.rimjhodek.specs.Answers.{flag_of, number_of, eviction_of};

use crate::answers;
use crate::answers::{Eviction, Flag, Number};
use cache::icache;

// Whether a line is to be written back, and its bytes, or zero: `DataLine` with more bytes.
#[repr(C)]
#[derive(Clone, Copy)]
pub struct InstructionLine {
    pub eviction: Eviction,
    pub data: [u8; 32],
}

#[unsafe(no_mangle)]
pub extern "C" fn rimjhodek_icache_new(lines: &mut [u8], tags: &mut [u32]) -> u8
    ensures { (result ≡ (both_told 16384 lines.old tags.old).number)
        × (lines.new ≡ fresh_part 16384 lines.old tags.old lines.old)
        × (tags.new ≡ fresh_part 16384 lines.old tags.old tags.old) }
{
    answers::done_of(icache::new(lines, tags))
}

#[unsafe(no_mangle)]
pub extern "C" fn rimjhodek_icache_hits(tags: &[u32], addr: u32) -> Flag
    ensures { result ≡ flag_of (hits_told 32 tags.now addr) }
{
    answers::hits_in(tags, addr, 32)
}

// The same of tag words whose number their type says: nothing is left to refuse.
#[unsafe(no_mangle)]
pub extern "C" fn rimjhodek_icache_hit(tags: &[u32; 512], addr: u32) -> bool
    ensures { result ≡ hit_of (word_for 32 tags.now addr) addr }
{
    answers::hit_in(tags, addr, 32)
}

#[unsafe(no_mangle)]
pub extern "C" fn rimjhodek_icache_read_word(lines: &[u8], addr: u32) -> Number
    ensures { result ≡ number_of (word_told lines.now addr) }
{
    Number::from(icache::read_word(lines, addr))
}

#[unsafe(no_mangle)]
pub extern "C" fn rimjhodek_icache_install(
    lines: &mut [u8],
    tags: &mut [u32],
    addr: u32,
    line: &[u8; 32],
) -> u8
    ensures { (result ≡ (both_told 16384 lines.old tags.old).number)
        × (lines.new ≡ install_bytes 32 16384 lines.old tags.old addr line.now)
        × (tags.new ≡ install_tags 32 16384 lines.old tags.old addr) }
{
    answers::done_of(icache::install(lines, tags, addr, *line))
}

#[unsafe(no_mangle)]
pub extern "C" fn rimjhodek_icache_load_tag(tags: &[u32], addr: u32) -> Number
    ensures { result ≡ number_of (load_told 32 2 tags.now addr) }
{
    Number::from(icache::load_tag(tags, addr))
}

#[unsafe(no_mangle)]
pub extern "C" fn rimjhodek_icache_store_tag(tags: &mut [u32], addr: u32, tag_lo: u32) -> u8
    ensures { (result ≡ (tags_told tags.old).number) × (tags.new ≡ store_tags 32 2 tags.old addr tag_lo) }
{
    answers::done_of(icache::store_tag(tags, addr, tag_lo))
}

#[unsafe(no_mangle)]
pub extern "C" fn rimjhodek_icache_invalidate_index(tags: &mut [u32], addr: u32) -> u8
    ensures { (result ≡ (tags_told tags.old).number) × (tags.new ≡ invalidate_tags tags.old addr) }
{
    answers::done_of(icache::invalidate_index(tags, addr))
}

#[unsafe(no_mangle)]
pub extern "C" fn rimjhodek_icache_hit_invalidate(tags: &mut [u32], addr: u32) -> u8
    ensures { (result ≡ (tags_told tags.old).number) × (tags.new ≡ hit_invalidate_tags tags.old addr) }
{
    answers::done_of(icache::hit_invalidate(tags, addr))
}

#[unsafe(no_mangle)]
pub extern "C" fn rimjhodek_icache_flush_hit(
    lines: &[u8],
    tags: &[u32],
    addr: u32,
) -> InstructionLine
    ensures { (result.eviction ≡ eviction_of (flush_told lines.now tags.now addr))
        × (result.«data» ≡ flush_bytes lines.now tags.now addr) }
{
    let flushed = icache::flush_hit(lines, tags, addr);
    let data = flushed.data;
    InstructionLine {
        eviction: Eviction::from(flushed.answer),
        data,
    }
}

#[unsafe(no_mangle)]
pub extern "C" fn rimjhodek_icache_resident_addr(tags: &[u32], index: usize) -> Number
    ensures { result ≡ number_of (resident_told tags.now (index % 512) (index % 512 * 32)) }
{
    Number::from(icache::resident_addr(tags, index))
}
