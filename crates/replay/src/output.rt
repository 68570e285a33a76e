// Text on its way to standard output, held until there is much to write. The memory is fixed: a `BufWriter` takes its own from
// the heap.
ghost use Rattle.std.specs.Prelude.{◌≡◌, ◌+◌, ◌≤◌, length};
ghost use Rattle.std.proofs.Math.Seq.{paste};

use std::io;
use std::io::Write;

// How many bytes are held at most.
const SIZE: usize = 65536;

// The first `used` bytes of `text` are still to be written.
#[derive(Drop)]
pub struct Output<'a> {
    rt: &'a HostRuntime,
    text: [u8; SIZE],
    used: usize,
    ghost held: { used ≤ 65536 },
}

impl<'a> Output<'a> {
    pub(crate) fn new(rt: &'a HostRuntime) -> Output<'a> {
        Output {
            rt,
            text: [0; SIZE],
            used: 0,
        }
    }

    // Puts bytes right after those that are held. All else stays as it was.
    fn hold(&mut self, bytes: &[u8])
        requires { self.old.used + length bytes.now ≤ 65536 }
        ensures text { self.new.text ≡ paste self.old.text self.old.used bytes.now (length bytes.now) }
        ensures used { self.new.used ≡ self.old.used + length bytes.now }
    {
        let end = self.used + bytes.len();
        self.text[self.used..end].copy_from_slice(bytes);
        self.used = end;
    }
}

impl Write for Output<'_> {
    fn write(&mut self, bytes: &[u8]) -> io::Result<usize> {
        self.write_all(bytes)?;
        Ok(bytes.len())
    }

    // Where bytes find no room, what is held is written first, and so are bytes that no empty buffer has room for.
    fn write_all(&mut self, bytes: &[u8]) -> io::Result<()> {
        if SIZE - self.used < bytes.len() {
            self.flush()?;
        }
        if SIZE - self.used < bytes.len() {
            return self.rt.write_all(bytes);
        }
        self.hold(bytes);
        Ok(())
    }

    // Where writing fails, the error goes up to `main` and ends the program.
    fn flush(&mut self) -> io::Result<()> {
        self.rt.write_all(&self.text[..self.used])?;
        self.used = 0;
        Ok(())
    }
}
