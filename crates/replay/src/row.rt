// A row of the operations' table: two letters for who plays it, a name, and then a letter for each operand.
ghost use Rattle.std.specs.Prelude.{◌≡◌};
ghost use Rattle.replay.specs.Request.{greatest_of, greatest_a_of, greatest_b_of};

use crate::line::{Lines, without_end};
use crate::words::Words;

// The parts of the program that play operations.
#[derive(Clone, Copy)]
pub enum Part {
    // A session's own operations.
    Session,
    // A fresh start.
    New,
    // The session told whole.
    State,
    // What writes a session's registers.
    Written,
    // What asks them.
    Asked,
    // What asks nothing but the numbers of a line.
    Computed,
    // Of each cache what needs its tag words alone, and what needs its lines too.
    DataTags,
    DataLines,
    InstructionTags,
    InstructionLines,
}

impl Part {
    // The part of a letter of the table. An Option and no `TryFrom`, whose error could say nothing but the letter.
    fn from_letter(letter: u8) -> Option<Part> {
        match letter {
            b's' => Some(Part::Session),
            b'n' => Some(Part::New),
            b't' => Some(Part::State),
            b'w' => Some(Part::Written),
            b'a' => Some(Part::Asked),
            b'c' => Some(Part::Computed),
            b'd' => Some(Part::DataTags),
            b'D' => Some(Part::DataLines),
            b'i' => Some(Part::InstructionTags),
            b'I' => Some(Part::InstructionLines),
            _ => None,
        }
    }
}

// Who plays a row's operation, and a letter for each of its operands.
#[derive(Clone, Copy)]
pub(crate) struct Row<'t> {
    pub part: Part,
    pub arm: u8,
    pub letters: &'t [u8],
}

impl<'t> Row<'t> {
    // The row of a name, if the table has one.
    pub(crate) fn of(table: &'t [u8], name: &[u8]) -> Option<Row<'t>> {
        Lines(table).find_map(|line| Row::named(without_end(line), name))
    }

    // The row on a line of the table, if it is the name's.
    fn named(line: &'t [u8], name: &[u8]) -> Option<Row<'t>> {
        let mut words = Words(line);
        let [part, arm] = words.next()? else {
            return None;
        };
        if words.next()? != name {
            return None;
        }
        Some(Row {
            part: Part::from_letter(*part)?,
            arm: *arm,
            letters: words.next().unwrap_or(b""),
        })
    }
}

// The greatest number that an operand of a letter of the table may be (`Request.greatest_of`), on a line whose first operand is
// `exc`.
pub(crate) fn greatest(letter: u8, exc: u64) -> u64
    ensures { result ≡ greatest_of exc letter }
{
    match letter {
        b'f' => 1,
        b'm' => 2,
        b'v' => 3,
        b'e' => 0xd,
        b'b' => 0xff,
        b'w' => 0xffff_ffff,
        b'A' => greatest_a(exc),
        b'B' => greatest_b(exc),
        _ => 0xffff_ffff_ffff_ffff,
    }
}

// An exception's operand A: whether it is a store, a coprocessor's unit, or nothing.
fn greatest_a(exc: u64) -> u64
    ensures { result ≡ greatest_a_of exc }
{
    match exc {
        1 | 10 | 11 => 1,
        7 | 8 => 0xff,
        _ => 0,
    }
}

// An exception's operand B: whether a refill is wide, or nothing.
fn greatest_b(exc: u64) -> u64
    ensures { result ≡ greatest_b_of exc }
{
    match exc {
        10 => 1,
        _ => 0,
    }
}
