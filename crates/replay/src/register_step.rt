// The operations beside a session's: they write its registers, ask them, or ask nothing but the numbers of their line.
use crate::kind::{access_of, vector_of};
use crate::operand::byte;
use crate::request::Call;
use crate::session_step::is_cached;
use crate::told::Told;
use addr::{Access, Segment};
use cop0::{Cop0, Cop0Op};

// What may write the registers.
pub(crate) fn written(call: Call, c: &mut Cop0) -> Told {
    let v = call.values;
    match call.arm {
        b'a' => *c = c.write(byte(v[0]), v[1]),
        b'b' => *c = c.set_hardware(byte(v[0]), v[1]),
        b'c' => *c = c.set_now(v[0]),
        b'd' => *c = c.tick_random(),
        b'e' => *c = c.tick_random_by(v[0]),
        b'f' => return polled(c),
        b'g' => return taken(v[0], c),
        _ => return Told::Unplayed,
    }
    Told::Done
}

// The timer's question moves the mark of when it was last asked.
fn polled(c: &mut Cop0) -> Told {
    let polled = c.timer_edge();
    *c = polled.cop0;
    Told::Flag(polled.edge)
}

fn taken(pc: u64, c: &mut Cop0) -> Told {
    let taken = exception::nmi(*c, pc);
    *c = taken.cop0;
    Told::from(taken.dispatch)
}

// What the registers say.
pub(crate) fn asked(call: Call, c: Cop0) -> Told {
    let v = call.values;
    match call.arm {
        b'a' => Told::Number(c.read(byte(v[0]))),
        b'b' => Told::Flag(c.timer_matches()),
        b'c' => Told::Number(c.count() as u64),
        b'd' => Told::Number(c.count_now()),
        b'e' => Told::Number(c.count_ticks_until_timer_match()),
        b'f' => Access::from_status(c.regs[Cop0::STATUS as usize]).map_or_else(
            Told::from,
            Told::Access,
        ),
        _ => Told::Unplayed,
    }
}

// What needs no register.
pub(crate) fn computed(call: Call) -> Told {
    let v = call.values;
    match call.arm {
        b'a' => form(byte(v[0])),
        b'b' => Told::Flag(cop0::is_wide(byte(v[0]))),
        b'c' => Told::Flag(Cop0::is_unused(byte(v[0]))),
        b'd' => of_segment(access_of(v[1], v[2], v[3]).segment(v[0])),
        b'e' => Told::Number(exception::vector(v[0], vector_of(v[1]))),
        _ => Told::Unplayed,
    }
}

// The access form that an instruction's rs field names, by its number in the trace format.
fn form(rs: u8) -> Told {
    Cop0Op::from_rs(rs).map_or_else(Told::from, |op| Told::Number(op as u64))
}

fn of_segment(segment: Segment) -> Told {
    match segment {
        Segment::Direct { addr, cached } => Told::Direct(addr, is_cached(cached)),
        Segment::Mapped => Told::Mapped,
        Segment::Invalid => Told::Address,
    }
}
