// A whole trace, from a fresh start to its end or its first fault.
use crate::caches::{DataCache, InstructionCache};
use crate::line::{Lines, without_end};
use crate::output::Output;
use crate::request::{Call, read};
use crate::row::Part;
use crate::told::{Told, done};
use crate::{answer, dcache_step, icache_step, input, register_step, session_step, state};
use cache::{Refusal, dcache, icache};
use session::Session;
use std::io;
use std::io::Write;

// A trace, line by line.
pub fn play(text: &[u8], out: &mut Output) -> io::Result<()> {
    if input::LIMIT < text.len() {
        return out.write_all(b"trace too long\n");
    }
    let mut player = Player::new();
    for (number, line) in (1u64..).zip(Lines(text)) {
        match read(without_end(line)) {
            Ok(None) => {}
            Ok(Some(call)) => player.play(call, out)?,
            Err(fault) => return answer::write_fault(out, number, fault),
        }
    }
    Ok(())
}

// What plays a trace: a session and both caches.
#[derive(Drop)]
struct Player {
    session: Session,
    data: DataCache,
    instructions: InstructionCache,
}

impl Player {
    fn new() -> Player {
        Player {
            session: Session::new(),
            data: DataCache::new(),
            instructions: InstructionCache::new(),
        }
    }

    // One operation and its answer.
    fn play(&mut self, call: Call, out: &mut Output) -> io::Result<()> {
        let told = match call.part {
            Part::State => return state::write(out, self.session),
            Part::New => self.renew(),
            Part::Session => session_step::play(call, &mut self.session),
            Part::Written => register_step::written(call, &mut self.session.cop0),
            Part::Asked => register_step::asked(call, self.session.cop0),
            Part::Computed => register_step::computed(call),
            Part::DataTags => dcache_step::on_tags(call, &mut self.data),
            Part::DataLines => dcache_step::on_lines(call, &mut self.data),
            Part::InstructionTags => icache_step::on_tags(call, &mut self.instructions),
            Part::InstructionLines => icache_step::on_lines(call, &mut self.instructions),
        };
        answer::write(out, told)
    }

    // A fresh session and fresh caches.
    fn renew(&mut self) -> Told {
        self.session = Session::new();
        self.renew_caches().map_or_else(Told::from, done)
    }

    fn renew_caches(&mut self) -> Result<(), Refusal> {
        let data = &mut self.data;
        dcache::new(&mut data.lines, &mut data.tags)?;
        let instructions = &mut self.instructions;
        icache::new(&mut instructions.lines, &mut instructions.tags)
    }
}
