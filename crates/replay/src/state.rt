// The session whole, as text.
use crate::answer;
use crate::answer::Value::{Flag, Number};
use crate::output::Output;
use cop0::Cop0;
use session::Session;
use std::io;
use tlb::Tlb;

pub fn write(out: &mut Output, s: Session) -> io::Result<()> {
    write_registers(out, s.cop0)?;
    write_clock(out, s.cop0)?;
    write_micro(out, s.tlb)?;
    write_entries(out, s.tlb)
}

// The registers as stored.
fn write_registers(out: &mut Output, c: Cop0) -> io::Result<()> {
    answer::line(out, b"regs", &c.regs.map(Number))
}

fn write_clock(out: &mut Output, c: Cop0) -> io::Result<()> {
    answer::line(
        out,
        b"clock",
        &[
            Number(c.now),
            Number(c.count_epoch_value as u64),
            Number(c.count_epoch_tick),
            Number(c.last_count as u64),
            Number(c.ec as u64),
            Number(c.write_latch),
        ],
    )
}

// The micro-TLB, and whether the table is shut down.
fn write_micro(out: &mut Output, t: Tlb) -> io::Result<()> {
    let [first, second] = t.itlb;
    answer::line(
        out,
        b"itlb",
        &[
            Number(first as u64),
            Number(second as u64),
            Number(t.itlb_lru as u64),
            Flag(t.shutdown),
        ],
    )
}

fn write_entries(out: &mut Output, t: Tlb) -> io::Result<()> {
    for i in 0..32 {
        answer::write_entry(out, i as u64, t.entry(i))?;
    }
    Ok(())
}
