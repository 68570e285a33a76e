// One operation of the data cache, played on its memory. Three arms are those of `icache_step` over another module of `cache`: a
// trait for both would be longer than they are.
use crate::cache_answers::{of_plan, of_writeback};
use crate::caches::{DataCache, line_at, line_of};
use crate::operand::{flag, word};
use crate::request::Call;
use crate::told::{Line, Told, done};
use cache::dcache;

// What needs the tag words alone.
pub(crate) fn on_tags(call: Call, cache: &mut DataCache) -> Told {
    let v = call.values;
    let addr = word(v[0]);
    let tags = &mut cache.tags;
    match call.arm {
        b'a' => dcache::hits(tags, addr).map_or_else(Told::from, Told::Flag),
        b'b' => dcache::load_tag(tags, addr).map_or_else(Told::from, Told::Number),
        b'c' => dcache::store_tag(tags, addr, word(v[1])).map_or_else(Told::from, done),
        _ => Told::Unplayed,
    }
}

// What needs the lines too.
pub(crate) fn on_lines(call: Call, cache: &mut DataCache) -> Told {
    let v = call.values;
    let addr = word(v[0]);
    let lines = &mut cache.lines;
    let tags = &mut cache.tags;
    match call.arm {
        b'a' => of_plan(dcache::miss_plan(lines, tags, addr)),
        b'b' => dcache::install(lines, tags, addr, line_of(&v[1..3])).map_or_else(Told::from, done),
        b'c' => dcache::read(lines, addr, v[1] as usize).map_or_else(Told::from, Told::Number),
        b'd' => dcache::write(lines, tags, addr, v[1] as usize, v[2]).map_or_else(Told::from, done),
        b'e' => of_writeback(dcache::flush_index(lines, tags, addr, flag(v[1]), flag(v[2]))),
        b'f' => of_writeback(dcache::create_dirty_exclusive(lines, tags, addr)),
        b'g' => {
            let i = (v[0] % 512) as usize;
            Told::Line(tags[i], Line::Data(line_at(lines, i * 16)))
        }
        _ => Told::Unplayed,
    }
}
