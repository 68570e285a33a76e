// What a line asks: an operation, nothing, or something that is wrong.
ghost use Rattle.std.specs.Prelude.{◌≡◌, map};
ghost use Rattle.replay.specs.Request.{greatest_of, over, checked_of};

use crate::operand::{MOST, Operands};
use crate::operations::row_of;
use crate::row::{Part, Row, greatest};
use crate::words::Words;

// What is wrong with a line, in the order in which it is checked.
#[derive(Clone, Copy)]
pub enum Fault {
    UnknownOperation,
    OperandCount,
    BadNumber,
    OutOfRange,
}

// An operation by the part that plays it and the arm there, with its operands. An arm is a letter of the table: an enum of all
// operations would name each of them here, in the table and where it is played.
#[derive(Clone, Copy)]
pub struct Call {
    pub part: Part,
    pub arm: u8,
    pub values: [u64; MOST],
}

// What a line asks, if anything: a line without a word and a comment do not.
pub fn read(line: &[u8]) -> Result<Option<Call>, Fault> {
    let mut words = Words(line);
    let Some(name) = words.next() else {
        return Ok(None);
    };
    if name.starts_with(b"#") {
        return Ok(None);
    }
    let call = checked(row_of(name), Operands::of(words))?;
    Ok(Some(call))
}

// The operation, if there is such a one, with an operand for each of its letters, all numbers and none over its limit. Each check
// goes over the whole line before the next one starts. A number that is not there is 0, and over no limit.
fn checked(row: Option<Row>, args: Operands) -> Result<Call, Fault>
    ensures { result ≡ checked_of row.entry args }
{
    let Some(row) = row else {
        return Err(Fault::UnknownOperation);
    };
    if args.count != row.letters.len() {
        return Err(Fault::OperandCount);
    }
    let Some(values) = args.values else {
        return Err(Fault::BadNumber);
    };
    if is_over(row.letters, &values, values[0]) {
        return Err(Fault::OutOfRange);
    }
    Ok(Call {
        part: row.part,
        arm: row.arm,
        values,
    })
}

// Whether a number is over the limit of its letter, on a line whose first operand is `exc`.
fn is_over(letters: &[u8], values: &[u64], exc: u64) -> bool
    ensures { result ≡ over (map (greatest_of exc) letters.now) values.now }
{
    letters
        .iter()
        .zip(values)
        .any(|(letter, value)| greatest(*letter, exc) < *value)
}
