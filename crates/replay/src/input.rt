// Reading a trace whole.
ghost use Rattle.std.specs.Prelude.{◌≤◌, ◌≡◌, IfOk, length};

use std::fs::File;
use std::io;
use std::io::{ErrorKind, Read};

// The longest trace, in bytes.
pub(crate) const LIMIT: usize = 1048576;

// Room for the longest trace and one byte more: a trace that fills it is too long. The `ensures` gives only the length,
// which lending the array as a slice needs.
pub fn room() -> [u8; LIMIT + 1]
    ensures { 1048577 ≡ length result }
{
    [0; LIMIT + 1]
}

// The file whose name is the first `n` bytes of `room`, read over the name. A name that is not UTF-8 can't be opened.
pub fn read_file<'a>(rt: &HostRuntime, n: usize, room: &'a mut [u8]) -> io::Result<&'a [u8]>
    requires { n ≤ length room.old }
    ensures { IfOk result (λ text. length text.now ≤ length room.old) }
{
    let Ok(name) = str::from_utf8(&room[..n]) else {
        return Err(io::Error::from(ErrorKind::InvalidFilename));
    };
    let mut file = File::open(rt, name)?;
    read_all(&mut file, room)
}

// Reads until the input ends or `room` is full; `read_to_end` takes its room from the heap. A read that fails is no end: a
// directory can be opened and not read.
pub fn read_all<'a>(from: &mut impl Read, room: &'a mut [u8]) -> io::Result<&'a [u8]>
    ensures { IfOk result (λ text. length text.now ≤ length room.old) }
{
    let mut count = 0;
    while count < room.len() {
        let more = from.read(&mut room[count..])?;
        if more == 0 {
            break;
        }
        count += more;
    }
    Ok(&room[..count])
}
