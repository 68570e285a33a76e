// What the operations answer, and why one is refused.
ghost use Rattle.std.specs.Prelude.{◌≡◌};
ghost use Rattle.cache.specs.Answers.{refusal_number};
ghost use Rattle.cache.specs.declared.answers.Refusal.TheVariants.{Access};

use lines::access;

// A lent part has the wrong length, or the access is none that a line has.
#[derive(Clone, Copy, PartialEq, Eq)]
pub enum Refusal {
    Lent,
    Access(access::Refusal),
}

impl Refusal {
    // Its number, by which other languages and traces know it: the scope's, written out, since it is no order of the cases.
    pub fn number(self) -> u8
        ensures { result ≡ refusal_number self }
    {
        match self {
            Refusal::Lent => 1,
            Refusal::Access(refusal) => refusal.number(),
        }
    }
}

impl From<access::Refusal> for Refusal {
    ghost from_gives = { λ r refusal. refusal ≡ Access r };

    fn from(reason: access::Refusal) -> Refusal {
        Refusal::Access(reason)
    }
}

// What an access must do first: nothing, fill the line, or write the line back to an address and then fill it.
#[derive(Clone, Copy, PartialEq, Eq)]
pub enum Plan {
    Hit,
    Fill,
    Evict(u32),
}

// The bytes are those of the line that is evicted, and zero where none is: `plan_bytes` asks for them beside each answer.
#[derive(Clone, Copy)]
pub struct MissPlan {
    pub answer: Result<Plan, Refusal>,
    pub data: [u8; 16],
}

// The address that a line of N bytes is written back to, if it is, and its bytes, zero where it is not: `flush_bytes` and
// `create_bytes` ask for them beside each answer.
#[derive(Clone, Copy)]
pub struct Writeback<const N: usize> {
    pub answer: Result<Option<u32>, Refusal>,
    pub data: [u8; N],
}
