// Plays traces of a session's operations and of the caches' and writes an answer to each operation (docs/TRACE.md says what a
// trace is).
//
// From bytes to an answer: `input` reads a trace whole, `run` goes through it `line` by line, `request` says what a line asks, by
// its `words` and the table of `operations`, `kind` what its numbers stand for, and a `Player` plays it: a session's operations run
// through `session::Session::step` (`session_step`), others ask or write the session's registers (`register_step`). The caches' are
// in `caches`, `dcache_step` and `icache_step`. What is `told` becomes text in `answer`, and an `Output` holds the text until there
// is much to write; `state` tells the session whole.
#![tactic(auto)]

mod answer;
mod cache_answers;
mod caches;
mod dcache_step;
mod icache_step;
mod input;
mod kind;
mod line;
mod operand;
mod operations;
mod output;
mod register_step;
mod request;
mod row;
mod run;
mod session_step;
mod state;
mod told;
mod words;

use output::Output;
use std::env::{Env, FillError};
use std::io;
use std::io::Write;

// The two large buffers, for a trace and for the text to write, stand here alone and are lent to everything else. The first word of
// the command line is the program's own name.
fn main(rt: HostRuntime) -> io::Result<()> {
    let mut room = input::room();
    let mut out = Output::new(&rt);
    match rt.arg(1, &mut room) {
        Err(FillError::NotPresent) => play_input(&rt, &mut room, &mut out)?,
        _ => play_files(&rt, &mut room, &mut out)?,
    }
    out.flush()
}

// Standard input, which has no name to write first.
fn play_input(rt: &HostRuntime, room: &mut [u8], out: &mut Output) -> io::Result<()> {
    let text = input::read_all(&mut rt.stdin(), room)?;
    run::play(text, out)
}

// Each file in turn. Only by reading a word of the command line into `room` is it known whether it is there.
fn play_files(rt: &HostRuntime, room: &mut [u8], out: &mut Output) -> io::Result<()> {
    for i in 1..usize::MAX {
        if let Err(FillError::NotPresent) = rt.arg(i, room) {
            break;
        }
        play_file(rt, i, room, out)?;
    }
    Ok(())
}

// The line `trace NAME`, and the file's answers. The name stands in `room` until the file is read over it, so it is written first,
// and its line is ended once it is known whether the file can be read.
fn play_file(rt: &HostRuntime, i: usize, room: &mut [u8], out: &mut Output) -> io::Result<()> {
    let n = rt.arg(i, room).unwrap_or(0);
    out.write_all(b"trace ")?;
    out.write_all(&room[..n])?;
    let Ok(text) = input::read_file(rt, n, room) else {
        return out.write_all(b": cannot be read\n");
    };
    out.write_all(b"\n")?;
    run::play(text, out)
}
