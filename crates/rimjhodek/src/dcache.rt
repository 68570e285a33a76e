// The data cache: 8,192 bytes of lines and 512 tag words, both lent.
ghost use Rattle.std.specs.Prelude.{◌≡◌, ◌*◌, ◌%◌};
ghost use Rattle.tags.specs.Words.{hit_of};
ghost use Rattle.tags.specs.Places.{word_for};
ghost use Rattle.cache.specs.Both.{hits_told, load_told, resident_told, tags_told, store_tags, both_told, fresh_part, install_bytes, install_tags};
ghost use Rattle.cache.specs.Data.{plan_told, plan_bytes, read_told, write_told, write_bytes, write_tags, flush_told, flush_bytes, flush_tags, create_told, create_bytes, create_tags};
ghost use Rattle.rimjhodek.specs.Answers.{flag_of, number_of, plan_of, eviction_of};

use crate::answers;
use crate::answers::{Eviction, Flag, Number, Plan};
use cache::dcache;

// What an access must do first, and the bytes of the line that is evicted, or zero.
#[repr(C)]
#[derive(Clone, Copy)]
pub struct DataPlan {
    pub plan: Plan,
    pub data: [u8; 16],
}

// Whether a line is to be written back, and its bytes, or zero. No const parameter for their number, which differs in the two caches:
// the signature of an exported function may have none.
#[repr(C)]
#[derive(Clone, Copy)]
pub struct DataLine {
    pub eviction: Eviction,
    pub data: [u8; 16],
}

#[unsafe(no_mangle)]
pub extern "C" fn rimjhodek_dcache_new(lines: &mut [u8], tags: &mut [u32]) -> u8
    ensures { (result ≡ (both_told 8192 lines.old tags.old).number)
        × (lines.new ≡ fresh_part 8192 lines.old tags.old lines.old)
        × (tags.new ≡ fresh_part 8192 lines.old tags.old tags.old) }
{
    answers::done_of(dcache::new(lines, tags))
}

#[unsafe(no_mangle)]
pub extern "C" fn rimjhodek_dcache_hits(tags: &[u32], addr: u32) -> Flag
    ensures { result ≡ flag_of (hits_told 16 tags.now addr) }
{
    answers::hits_in(tags, addr, 16)
}

// The same of tag words whose number their type says: nothing is left to refuse.
#[unsafe(no_mangle)]
pub extern "C" fn rimjhodek_dcache_hit(tags: &[u32; 512], addr: u32) -> bool
    ensures { result ≡ hit_of (word_for 16 tags.now addr) addr }
{
    answers::hit_in(tags, addr, 16)
}

#[unsafe(no_mangle)]
pub extern "C" fn rimjhodek_dcache_miss_plan(lines: &[u8], tags: &[u32], addr: u32) -> DataPlan
    ensures { (result.plan ≡ plan_of (plan_told lines.now tags.now addr))
        × (result.«data» ≡ plan_bytes lines.now tags.now addr) }
{
    let planned = dcache::miss_plan(lines, tags, addr);
    let data = planned.data;
    DataPlan {
        plan: Plan::from(planned.answer),
        data,
    }
}

// The line is lent too: a foreign function cannot pass an array.
#[unsafe(no_mangle)]
pub extern "C" fn rimjhodek_dcache_install(
    lines: &mut [u8],
    tags: &mut [u32],
    addr: u32,
    line: &[u8; 16],
) -> u8
    ensures { (result ≡ (both_told 8192 lines.old tags.old).number)
        × (lines.new ≡ install_bytes 16 8192 lines.old tags.old addr line.now)
        × (tags.new ≡ install_tags 16 8192 lines.old tags.old addr) }
{
    answers::done_of(dcache::install(lines, tags, addr, *line))
}

#[unsafe(no_mangle)]
pub extern "C" fn rimjhodek_dcache_read(lines: &[u8], addr: u32, len: usize) -> Number
    ensures { result ≡ number_of (read_told lines.now addr len) }
{
    Number::from(dcache::read(lines, addr, len))
}

#[unsafe(no_mangle)]
pub extern "C" fn rimjhodek_dcache_write(
    lines: &mut [u8],
    tags: &mut [u32],
    addr: u32,
    len: usize,
    value: u64,
) -> u8
    ensures { (result ≡ (write_told lines.old tags.old addr len).number)
        × (lines.new ≡ write_bytes lines.old tags.old addr len value)
        × (tags.new ≡ write_tags lines.old tags.old addr len) }
{
    answers::done_of(dcache::write(lines, tags, addr, len, value))
}

#[unsafe(no_mangle)]
pub extern "C" fn rimjhodek_dcache_load_tag(tags: &[u32], addr: u32) -> Number
    ensures { result ≡ number_of (load_told 16 3 tags.now addr) }
{
    Number::from(dcache::load_tag(tags, addr))
}

#[unsafe(no_mangle)]
pub extern "C" fn rimjhodek_dcache_store_tag(tags: &mut [u32], addr: u32, tag_lo: u32) -> u8
    ensures { (result ≡ (tags_told tags.old).number) × (tags.new ≡ store_tags 16 3 tags.old addr tag_lo) }
{
    answers::done_of(dcache::store_tag(tags, addr, tag_lo))
}

#[unsafe(no_mangle)]
pub extern "C" fn rimjhodek_dcache_flush_index(
    lines: &[u8],
    tags: &mut [u32],
    addr: u32,
    invalidate: bool,
    clean: bool,
) -> DataLine
    ensures { (result.eviction ≡ eviction_of (flush_told lines.now tags.old addr))
        × (result.«data» ≡ flush_bytes lines.now tags.old addr)
        × (tags.new ≡ flush_tags lines.now tags.old addr invalidate clean) }
{
    let flushed = dcache::flush_index(lines, tags, addr, invalidate, clean);
    let data = flushed.data;
    DataLine {
        eviction: Eviction::from(flushed.answer),
        data,
    }
}

#[unsafe(no_mangle)]
pub extern "C" fn rimjhodek_dcache_create_dirty_exclusive(
    lines: &[u8],
    tags: &mut [u32],
    addr: u32,
) -> DataLine
    ensures { (result.eviction ≡ eviction_of (create_told lines.now tags.old addr))
        × (result.«data» ≡ create_bytes lines.now tags.old addr)
        × (tags.new ≡ create_tags lines.now tags.old addr) }
{
    let created = dcache::create_dirty_exclusive(lines, tags, addr);
    let data = created.data;
    DataLine {
        eviction: Eviction::from(created.answer),
        data,
    }
}

#[unsafe(no_mangle)]
pub extern "C" fn rimjhodek_dcache_resident_addr(tags: &[u32], index: usize) -> Number
    ensures { result ≡ number_of (resident_told tags.now (index % 512) (index % 512 * 16)) }
{
    Number::from(dcache::resident_addr(tags, index))
}
