// What is turned away.
ghost use Rattle.std.specs.Prelude.{◌≡◌};
ghost use Rattle.cop0.specs.Refusals.{refusal_number};

// Why an operation of the register file is turned away.
#[derive(Clone, Copy, PartialEq, Eq)]
pub enum Refusal {
    // An advance of 2^32 counts or more, which could pass Compare more than once.
    Counts,
    // An rs field that names no access form.
    Form,
}

impl Refusal {
    // Its number, by which other languages and traces know it: the scope's, written out, since it is no order of the cases.
    pub fn number(self) -> u8
        ensures { result ≡ refusal_number self }
    {
        match self {
            Refusal::Counts => 5,
            Refusal::Form => 6,
        }
    }
}
