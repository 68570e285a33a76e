// The data cache: 8 KiB in 512 lines of 16 bytes, written back. What it does as the instruction cache does stays a function here,
// a line over `both`, since the Rust original has it by that name.
ghost use Rattle.std.specs.Prelude.{◌≡◌, ◌*◌, ◌%◌};
ghost use Rattle.bits.specs.Told.{answered};
ghost use Rattle.cache.specs.Answers.{plan_values, told_done, told_asked, told_value, told_plan, told_writeback};
ghost use Rattle.cache.specs.Both.{hits_told, load_told, resident_told, tags_told, store_tags, both_told, fresh_part, install_bytes, install_tags};
ghost use Rattle.cache.specs.Data.{planned_of, evicts_of, plan_told, plan_bytes, read_told, write_told, write_bytes, write_tags, flush_told, flush_bytes, flush_tags, create_told, create_bytes, create_tags};

use crate::answers::{MissPlan, Plan, Refusal, Writeback};
use crate::both;
use lines::{access, bytes};
use tags::{tag_array, tag_word};

// All its bytes.
const BYTES: usize = 8192;

// PState of a valid line.
const VALID_STATE: u8 = 3;

// A cache with every line invalid: what is lent is zeroed.
pub fn new(lines: &mut [u8], tags: &mut [u32]) -> Result<(), Refusal>
    ensures { (told_done result ≡ both_told 8192 lines.old tags.old)
        × (lines.new ≡ fresh_part 8192 lines.old tags.old lines.old)
        × (tags.new ≡ fresh_part 8192 lines.old tags.old tags.old) }
{
    both::fresh::<BYTES>(lines, tags)
}

// Does the address hit a valid line?
pub fn hits(tags: &[u32], addr: u32) -> Result<bool, Refusal>
    ensures { told_asked result ≡ hits_told 16 tags.now addr }
{
    both::hits::<16>(tags, addr)
}

// What must be done before the line of an address can be accessed. A dirty line goes to the address that it came from, and not
// to the one that displaces it.
#[tactic(auto, unfolding(crate::specs::Data::plan_told, crate::specs::Data::plan_bytes))]
pub fn miss_plan(lines: &[u8], tags: &[u32], addr: u32) -> MissPlan
    ensures { (told_plan result.answer ≡ plan_told lines.now tags.now addr)
        × (result.«data» ≡ plan_bytes lines.now tags.now addr) }
{
    if let Err(refusal) = both::check_sized::<BYTES>(lines, tags) {
        return MissPlan {
            answer: Err(refusal),
            data: [0; 16],
        };
    }
    let word = tag_array::word_for(tags, addr, 16);
    let start = tag_array::start(addr, 16);
    MissPlan {
        answer: Ok(planned(word, addr, start)),
        data: bytes::line(lines, start, evicts(word, addr)),
    }
}

// Puts a line that was read from memory into its place.
pub fn install(lines: &mut [u8], tags: &mut [u32], addr: u32, line: [u8; 16]) -> Result<(), Refusal>
    ensures { (told_done result ≡ both_told 8192 lines.old tags.old)
        × (lines.new ≡ install_bytes 16 8192 lines.old tags.old addr line)
        × (tags.new ≡ install_tags 16 8192 lines.old tags.old addr) }
{
    both::install::<16, BYTES>(lines, tags, addr, &line)
}

// `len` bytes at an address, the highest first. The caller has made the line resident: no hit is tested.
#[tactic(auto, unfolding(crate::specs::Data::read_told, lines::specs::Bytes::number_at, lines::specs::Access::access_refusal))]
pub fn read(lines: &[u8], addr: u32, len: usize) -> Result<u64, Refusal>
    ensures { told_value result ≡ read_told lines.now addr len }
{
    if lines.len() != BYTES {
        return Err(Refusal::Lent);
    }
    access::check(addr, len)?;
    let at = tag_array::start(addr, 16) + (addr % 16) as usize;
    Ok(bytes::big_endian(lines, at, len))
}

// The low `len` bytes of a value go to an address, and the line is dirty then, valid or not.
#[tactic(auto, unfolding(crate::specs::Data::write_told, crate::specs::Data::write_bytes, crate::specs::Data::write_tags))]
pub fn write(
    lines: &mut [u8],
    tags: &mut [u32],
    addr: u32,
    len: usize,
    value: u64,
) -> Result<(), Refusal>
    ensures { (told_done result ≡ write_told lines.old tags.old addr len)
        × (lines.new ≡ write_bytes lines.old tags.old addr len value)
        × (tags.new ≡ write_tags lines.old tags.old addr len) }
{
    both::check_sized::<BYTES>(lines, tags)?;
    access::check(addr, len)?;
    let place = tag_array::start(addr, 16) + (addr % 16) as usize;
    bytes::put_big_endian(lines, place, len, value);
    let old = tag_array::word_for(tags, addr, 16);
    tag_array::replace(tags, addr, 16, tag_word::marked(old, true));
    Ok(())
}

// `Index_Load_Tag`, in TagLo's form.
pub fn load_tag(tags: &[u32], addr: u32) -> Result<u64, Refusal>
    ensures { told_value result ≡ load_told 16 3 tags.now addr }
{
    both::load_tag::<16, VALID_STATE>(tags, addr)
}

// `Index_Store_Tag`: the line is clean then.
pub fn store_tag(tags: &mut [u32], addr: u32, tag_lo: u32) -> Result<(), Refusal>
    ensures { (told_done result ≡ tags_told tags.old) × (tags.new ≡ store_tags 16 3 tags.old addr tag_lo) }
{
    both::store_tag::<16, VALID_STATE>(tags, addr, tag_lo)
}

// Takes the line for write-back, if it is valid and dirty. `clean` clears the dirty flag and leaves the line resident;
// `invalidate` clears both flags.
#[tactic(auto, using(crate::proofs::PartLaws::all_there), unfolding(crate::specs::Data::flush_told, crate::specs::Data::flush_bytes, crate::specs::Data::flush_tags))]
pub fn flush_index(
    lines: &[u8],
    tags: &mut [u32],
    addr: u32,
    invalidate: bool,
    clean: bool,
) -> Writeback<16>
    ensures { (told_writeback result.answer ≡ flush_told lines.now tags.old addr)
        × (result.«data» ≡ flush_bytes lines.now tags.old addr)
        × (tags.new ≡ flush_tags lines.now tags.old addr invalidate clean) }
{
    if let Err(refusal) = both::check_sized::<BYTES>(lines, tags) {
        return both::refused_writeback(refusal);
    }
    let old = tag_array::word_for(tags, addr, 16);
    tag_array::replace(tags, addr, 16, tag_word::flushed(old, invalidate, clean));
    let start = tag_array::start(addr, 16);
    both::writeback(lines, old, start, tag_word::leaves(old))
}

// `Create_Dirty_Exclusive`: claims the line without filling it, for a caller that is about to write all of it. The bytes that
// it had stay; what it displaces is told.
#[tactic(auto, using(crate::proofs::PartLaws::all_there), unfolding(crate::specs::Data::create_told, crate::specs::Data::create_bytes, crate::specs::Data::create_tags))]
pub fn create_dirty_exclusive(lines: &[u8], tags: &mut [u32], addr: u32) -> Writeback<16>
    ensures { (told_writeback result.answer ≡ create_told lines.now tags.old addr)
        × (result.«data» ≡ create_bytes lines.now tags.old addr)
        × (tags.new ≡ create_tags lines.now tags.old addr) }
{
    if let Err(refusal) = both::check_sized::<BYTES>(lines, tags) {
        return both::refused_writeback(refusal);
    }
    let old = tag_array::word_for(tags, addr, 16);
    tag_array::replace(tags, addr, 16, tag_word::taken(addr, true));
    let start = tag_array::start(addr, 16);
    both::writeback(lines, old, start, tag_word::displaced(old, addr))
}

// The address that line `index`, modulo 512, came from.
pub fn resident_addr(tags: &[u32], index: usize) -> Result<u64, Refusal>
    ensures { told_value result ≡ resident_told tags.now (index % 512) (index % 512 * 16) }
{
    both::resident_addr::<16>(tags, index)
}

// A hit, a fill, or a line that must leave first, with its own address.
#[tactic(auto, unfolding(crate::specs::Data::planned_of))]
fn planned(word: u32, addr: u32, start: usize) -> Plan
    ensures { answered (plan_values result) ≡ planned_of word addr start }
{
    if tag_word::is_hit(word, addr) {
        return Plan::Hit;
    }
    if tag_word::leaves(word) {
        return Plan::Evict(tag_word::resident(word, start));
    }
    Plan::Fill
}

// Must the line be written back before the address can have it?
#[tactic(auto, unfolding(crate::specs::Data::evicts_of))]
fn evicts(word: u32, addr: u32) -> bool
    ensures { result ≡ evicts_of word addr }
{
    !tag_word::is_hit(word, addr) && tag_word::leaves(word)
}
