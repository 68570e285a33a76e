// What is turned away.
ghost use Rattle.std.specs.Prelude.{◌≡◌};
ghost use Rattle.addr.specs.Answers.{refusal_number};

// Why Status asks for no access.
#[derive(Clone, Copy, PartialEq, Eq)]
pub enum Refusal {
    // KSU is 3, to which the manual gives no mode, and EXL and ERL are 0.
    NoMode,
}

impl Refusal {
    // Its number, by which other languages and traces know it: the scope's, written out, since it is no order of the cases.
    pub fn number(self) -> u8
        ensures { result ≡ refusal_number self }
    {
        match self {
            Refusal::NoMode => 4,
        }
    }
}
