// Answers as text: a line is a word, and values with a space before each.
ghost use Rattle.std.specs.Prelude.{◌≤◌};

use crate::output::Output;
use crate::request::Fault;
use crate::told::{Line, Told};
use addr::Access;
use std::io;
use std::io::Write;
use tlb::Entry;

// A value as it is written: a number of 16 digits, a flag, a decimal number, or the bytes of a line. No `Display`: hexadecimal
// digits are made by `digits`, whose contract says which they are, and the library's formatting promises none.
#[derive(Clone, Copy)]
pub(crate) enum Value {
    Number(u64),
    Flag(bool),
    Decimal(u64),
    Bytes(Line),
}

use Value::{Bytes, Decimal, Flag, Number};

// An operation's answer.
pub fn write(out: &mut Output, told: Told) -> io::Result<()> {
    match told {
        Told::Done => line(out, b"ok", &[]),
        Told::Number(value) => line(out, b"=", &[Number(value)]),
        Told::Flag(is) => line(out, b"=", &[Flag(is)]),
        Told::Edge(edge) => line(out, b"edge", &[Flag(edge)]),
        Told::Refused(k) => line(out, b"refused", &[Decimal(k as u64)]),
        Told::At(addr, is, entry) => {
            line(
                out,
                b"at",
                &[Number(addr as u64), Flag(is), Number(entry as u64)],
            )
        }
        Told::Refill => line(out, b"refill", &[]),
        Told::Invalid => line(out, b"invalid", &[]),
        Told::Modified => line(out, b"modified", &[]),
        Told::Address => line(out, b"address", &[]),
        Told::Mapped => line(out, b"mapped", &[]),
        Told::Direct(addr, cached) => line(out, b"direct", &[Number(addr as u64), Flag(cached)]),
        Told::Access(access) => write_access(out, access),
        Told::Vector(addr, cycles) => line(out, b"vector", &[Number(addr), Number(cycles as u64)]),
        Told::Entry(i, entry) => write_entry(out, i, entry),
        Told::Hit => line(out, b"hit", &[]),
        Told::Fill => line(out, b"fill", &[]),
        Told::Stays => line(out, b"none", &[]),
        Told::Evict(addr, bytes) => line(out, b"evict", &[Number(addr as u64), Bytes(bytes)]),
        Told::Line(tag_word, bytes) => write_line(out, tag_word, bytes),
        Told::Unplayed => line(out, b"unplayed", &[]),
    }
}

// What is wrong with a line: the last line of a run. No `Display` of a fault: a formatter writes in pieces of its own, and each piece
// may go into another write.
pub fn write_fault(out: &mut Output, number: u64, fault: Fault) -> io::Result<()> {
    write!(out, "line {number}")?;
    match fault {
        Fault::UnknownOperation => out.write_all(b": unknown operation\n"),
        Fault::OperandCount => out.write_all(b": wrong number of operands\n"),
        Fault::BadNumber => out.write_all(b": bad number\n"),
        Fault::OutOfRange => out.write_all(b": out of range\n"),
    }
}

// An entry, with its number before it.
pub(crate) fn write_entry(out: &mut Output, i: u64, entry: Entry) -> io::Result<()> {
    let even = entry.lo0;
    let odd = entry.lo1;
    line(
        out,
        b"entry",
        &[
            Number(i),
            Number(entry.page_mask as u64),
            Number(entry.vpn2),
            Number(entry.asid as u64),
            Flag(entry.global),
            Number(entry.region as u64),
            Number(even.pfn as u64),
            Number(even.c as u64),
            Flag(even.dirty),
            Flag(even.valid),
            Number(odd.pfn as u64),
            Number(odd.c as u64),
            Flag(odd.dirty),
            Flag(odd.valid),
        ],
    )
}

fn write_access(out: &mut Output, access: Access) -> io::Result<()> {
    let mode = access.mode as u64;
    line(
        out,
        b"access",
        &[Number(mode), Flag(access.wide), Flag(access.erl)],
    )
}

// A cache's line. Of its tag word bits 19..0 are the tag, bit 20 is valid and bit 21 is dirty.
fn write_line(out: &mut Output, tag_word: u32, bytes: Line) -> io::Result<()> {
    let tag = (tag_word % 0x10_0000) as u64;
    let valid = tag_word / 0x10_0000 % 2 == 1;
    let dirty = tag_word / 0x20_0000 % 2 == 1;
    line(
        out,
        b"line",
        &[Number(tag), Flag(valid), Flag(dirty), Bytes(bytes)],
    )
}

// A line of text: a word and values.
pub(crate) fn line(out: &mut Output, word: &[u8], values: &[Value]) -> io::Result<()> {
    out.write_all(word)?;
    for value in values {
        out.write_all(b" ")?;
        put_value(out, *value)?;
    }
    out.write_all(b"\n")
}

fn put_value(out: &mut Output, value: Value) -> io::Result<()> {
    match value {
        Number(number) => put_digits(out, number, 16),
        Flag(is) => put_digits(out, is as u64, 1),
        Decimal(number) => write!(out, "{number}"),
        Bytes(Line::Data(bytes)) => put_bytes(out, &bytes),
        Bytes(Line::Instructions(bytes)) => put_bytes(out, &bytes),
    }
}

// The bytes of a line, in words of 8: a word is one piece, since a piece costs more than its digits.
fn put_bytes(out: &mut Output, bytes: &[u8]) -> io::Result<()> {
    let (words, _) = bytes.as_chunks::<8>();
    for word in words {
        put_digits(out, u64::from_be_bytes(*word), 16)?;
    }
    Ok(())
}

// The `width` lowest hexadecimal digits of a number. They are made by `digits`, whose contract says which they are.
fn put_digits(out: &mut Output, number: u64, width: usize) -> io::Result<()>
    requires { width ≤ 16 }
{
    let mut text = [0u8; 16];
    digits::put(&mut text, 0, width, number);
    out.write_all(&text[..width])
}
