// An access to a line of the data cache: one to eight bytes, which stay within the line.
ghost use Rattle.std.specs.Prelude.{◌≡◌};
ghost use Rattle.lines.specs.Access.{access_refusal, refusal_number, check_number};

// Why an access is refused: it has no byte or more than eight, or it leaves its line.
#[derive(Clone, Copy, PartialEq, Eq)]
pub enum Refusal {
    Length,
    Crossing,
}

impl Refusal {
    // Its number, by which other languages and traces know it: the scope's, written out, since it is no order of the cases.
    pub fn number(self) -> u8
        ensures { result ≡ refusal_number self }
    {
        match self {
            Refusal::Length => 2,
            Refusal::Crossing => 3,
        }
    }
}

// Is the access one that a line has?
#[tactic(auto, unfolding(crate::specs::Access::access_refusal))]
pub fn check(addr: u32, len: usize) -> Result<(), Refusal>
    ensures { check_number result ≡ access_refusal addr len }
{
    if len < 1 {
        return Err(Refusal::Length);
    }
    if 8 < len {
        return Err(Refusal::Length);
    }
    if 16 < (addr % 16) as usize + len {
        return Err(Refusal::Crossing);
    }
    Ok(())
}
