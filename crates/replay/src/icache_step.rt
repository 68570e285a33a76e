// One operation of the instruction cache, played on its memory.
use crate::cache_answers::of_writeback;
use crate::caches::{InstructionCache, line_at, line_of};
use crate::operand::word;
use crate::request::Call;
use crate::told::{Line, Told, done};
use cache::icache;

// What needs the tag words alone.
pub(crate) fn on_tags(call: Call, cache: &mut InstructionCache) -> Told {
    let v = call.values;
    let addr = word(v[0]);
    let tags = &mut cache.tags;
    match call.arm {
        b'a' => icache::hits(tags, addr).map_or_else(Told::from, Told::Flag),
        b'b' => icache::load_tag(tags, addr).map_or_else(Told::from, Told::Number),
        b'c' => icache::store_tag(tags, addr, word(v[1])).map_or_else(Told::from, done),
        b'd' => icache::invalidate_index(tags, addr).map_or_else(Told::from, done),
        b'e' => icache::hit_invalidate(tags, addr).map_or_else(Told::from, done),
        _ => Told::Unplayed,
    }
}

// What needs the lines too.
pub(crate) fn on_lines(call: Call, cache: &mut InstructionCache) -> Told {
    let v = call.values;
    let addr = word(v[0]);
    let lines = &mut cache.lines;
    let tags = &mut cache.tags;
    match call.arm {
        b'a' => icache::install(lines, tags, addr, line_of(&v[1..5])).map_or_else(Told::from, done),
        b'b' => icache::read_word(lines, addr).map_or_else(Told::from, Told::Number),
        b'c' => of_writeback(icache::flush_hit(lines, tags, addr)),
        b'd' => {
            let i = (v[0] % 512) as usize;
            Told::Line(tags[i], Line::Instructions(line_at(lines, i * 32)))
        }
        _ => Told::Unplayed,
    }
}
