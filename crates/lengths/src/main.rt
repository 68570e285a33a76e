// Lends the caches parts of the wrong length, which no trace can lend, and writes how each operation answers: the number of its
// refusal, or 0. `stdout` has what it must write. At the end it says whether a byte or a word has changed.
#![tactic(auto)]

ghost use Rattle.std.specs.Prelude.{◌<◌, ◌^◌};

use cache::{Refusal, dcache, icache};
use std::io;

fn main(rt: HostRuntime) -> io::Result<()> {
    tried::<8191, 8192, 8193, _>(&rt, "data cache", data)?;
    tried::<16383, 16384, 16385, _>(&rt, "instruction cache", instruction)
}

// Lends each part one short and one long, beside the other as it is right.
fn tried<
    const SHORT: usize,
    const WHOLE: usize,
    const LONG: usize,
    F: Fn(&HostRuntime, &mut [u8], &mut [u32]) -> io::Result<()>,
>(rt: &HostRuntime, name: &str, run: F) -> io::Result<()>
    requires callable { F.IsAlwaysCallable run }
    requires fit { (SHORT < 2 ^ 63) × (WHOLE < 2 ^ 63) × (LONG < 2 ^ 63) }
{
    let mut lines = [1; WHOLE];
    let mut tags = [1; 512];
    println!(rt; "{name}, lines one short")?;
    run(rt, &mut [1; SHORT], &mut tags)?;
    println!(rt; "{name}, lines one long")?;
    run(rt, &mut [1; LONG], &mut tags)?;
    println!(rt; "{name}, tags one short")?;
    run(rt, &mut lines, &mut [1; 511])?;
    println!(rt; "{name}, tags one long")?;
    run(rt, &mut lines, &mut [1; 513])
}

// The operations that are lent both parts, and then those that are lent one alone, which is the part of the wrong length. The two
// caches have other operations: a trait for those that they share would be longer than both.
fn data(rt: &HostRuntime, lines: &mut [u8], tags: &mut [u32]) -> io::Result<()> {
    data_filled(rt, lines, tags)?;
    data_changed(rt, lines, tags)?;
    if tags.len() != 512 {
        data_tags(rt, tags)?;
        return unchanged(rt, lines, tags);
    }
    say(rt, "read", dcache::read(lines, 0, 1))?;
    say(rt, "read of 9 bytes", dcache::read(lines, 0, 9))?;
    unchanged(rt, lines, tags)
}

fn data_filled(rt: &HostRuntime, lines: &mut [u8], tags: &mut [u32]) -> io::Result<()> {
    say(rt, "new", dcache::new(lines, tags))?;
    say(rt, "miss_plan", dcache::miss_plan(lines, tags, 0).answer)?;
    say(rt, "install", dcache::install(lines, tags, 0, [2; 16]))
}

fn data_changed(rt: &HostRuntime, lines: &mut [u8], tags: &mut [u32]) -> io::Result<()> {
    say(rt, "write", dcache::write(lines, tags, 0, 1, 2))?;
    let flushed = dcache::flush_index(lines, tags, 0, true, true);
    say(rt, "flush_index", flushed.answer)?;
    let created = dcache::create_dirty_exclusive(lines, tags, 0);
    say(rt, "create_dirty_exclusive", created.answer)
}

fn data_tags(rt: &HostRuntime, tags: &mut [u32]) -> io::Result<()> {
    say(rt, "hits", dcache::hits(tags, 0))?;
    say(rt, "load_tag", dcache::load_tag(tags, 0))?;
    say(rt, "store_tag", dcache::store_tag(tags, 0, 2))?;
    say(rt, "resident_addr", dcache::resident_addr(tags, 0))
}

// The same of the instruction cache.
fn instruction(rt: &HostRuntime, lines: &mut [u8], tags: &mut [u32]) -> io::Result<()> {
    instruction_both(rt, lines, tags)?;
    if tags.len() != 512 {
        instruction_tags(rt, tags)?;
        return unchanged(rt, lines, tags);
    }
    say(rt, "read_word", icache::read_word(lines, 0))?;
    say(rt, "read_word past the line", icache::read_word(lines, 29))?;
    unchanged(rt, lines, tags)
}

fn instruction_both(rt: &HostRuntime, lines: &mut [u8], tags: &mut [u32]) -> io::Result<()> {
    say(rt, "new", icache::new(lines, tags))?;
    say(rt, "install", icache::install(lines, tags, 0, [2; 32]))?;
    say(rt, "flush_hit", icache::flush_hit(lines, tags, 0).answer)
}

fn instruction_tags(rt: &HostRuntime, tags: &mut [u32]) -> io::Result<()> {
    say(rt, "hits", icache::hits(tags, 0))?;
    say(rt, "load_tag", icache::load_tag(tags, 0))?;
    say(rt, "store_tag", icache::store_tag(tags, 0, 2))?;
    say(rt, "invalidate_index", icache::invalidate_index(tags, 0))?;
    say(rt, "hit_invalidate", icache::hit_invalidate(tags, 0))?;
    say(rt, "resident_addr", icache::resident_addr(tags, 0))
}

fn say<T: Drop>(rt: &HostRuntime, name: &str, answer: Result<T, Refusal>) -> io::Result<()> {
    let number = match answer {
        Ok(_) => 0,
        Err(refusal) => refusal.number(),
    };
    println!(rt; "{name} {number}")
}

// Is each byte and each word still 1?
fn unchanged(rt: &HostRuntime, lines: &[u8], tags: &[u32]) -> io::Result<()> {
    if lines.iter().all(|byte| *byte == 1) && tags.iter().all(|word| *word == 1) {
        println!(rt; "nothing changed")
    } else {
        println!(rt; "something changed")
    }
}
