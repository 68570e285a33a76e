// One operation of a session, played: every one of them goes through `Session::step`.
use crate::kind::{access_of, exception_of};
use crate::operand::{byte, flag, word};
use crate::request::Call;
use crate::told::Told;
use addr::{Cached, Physical};
use session::{Answer, Op, Session};
use tlb::Translated;

// An entry is told with the number that its line asks for.
pub fn play(call: Call, s: &mut Session) -> Told {
    let Some(op) = op_of(call) else {
        return Told::Unplayed;
    };
    let stepped = s.step(op);
    *s = stepped.session;
    told_of(stepped.answer, call.values[0] % 32)
}

// The operation of an arm, if there is such an arm.
fn op_of(call: Call) -> Option<Op> {
    let v = call.values;
    Some(match call.arm {
        b'a' => Op::Mfc0(byte(v[0])),
        b'b' => Op::Dmfc0(byte(v[0])),
        b'c' => Op::Mtc0(byte(v[0]), v[1]),
        b'd' => Op::Dmtc0(byte(v[0]), v[1]),
        b'e' => Op::SetIp(byte(v[0]), flag(v[1])),
        b'f' => Op::InterruptPending,
        b'g' => Op::Advance(v[0], v[1]),
        b'h' => Op::IsShutdown,
        b'i' => Op::Entry(v[0] as usize),
        b'j' => Op::PageSize(word(v[0])),
        b'k' => Op::PairSize(word(v[0])),
        b'l' => Op::Lookup(v[0], byte(v[1]), flag(v[2])),
        b'm' => Op::WriteEntry(v[0] as usize),
        b'n' => Op::ReadEntry(v[0] as usize),
        b'o' => Op::Probe,
        b'p' => Op::JtlbHasMatch(v[0], byte(v[1])),
        b'q' => Op::ItlbProbe(v[0], byte(v[1])),
        b'r' => Op::ItlbFill(v[0], byte(v[1])),
        b's' => Op::TranslateVia(v[0], byte(v[1]), flag(v[2]), access_of(v[3], v[4], v[5])),
        b't' => Op::Dispatch(exception_of(v[0], v[1], v[2]), v[3], flag(v[4]), v[5]),
        b'u' => Op::Eret,
        _ => return None,
    })
}

fn told_of(answer: Answer, i: u64) -> Told {
    match answer {
        Answer::Done => Told::Done,
        Answer::Number(value) => Told::Number(value),
        Answer::Flag(is) => Told::Flag(is),
        Answer::Entry(entry) => Told::Entry(i, entry),
        Answer::Lookup(found) => found.map_or_else(Told::from, of_lookup),
        Answer::Translate(found) => found.map_or_else(Told::from, of_translation),
        Answer::Vector(taken) => Told::from(taken),
        Answer::Advance(advanced) => advanced.map_or_else(Told::from, Told::Edge),
    }
}

// A lookup tells whether the place is uncached, and a translation whether it is cached.
fn of_lookup(found: Translated) -> Told {
    Told::At(found.addr, found.uncached, found.entry)
}

fn of_translation(found: Physical) -> Told {
    Told::At(found.addr, is_cached(found.cached), found.entry)
}

pub(crate) fn is_cached(cached: Cached) -> bool {
    matches!(cached, Cached::Yes)
}
