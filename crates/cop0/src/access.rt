// The four access instructions, and the rs field that names them.
ghost use Rattle.std.specs.Prelude.{◌≡◌};
ghost use Rattle.cop0.specs.Access.{mfc0_of, dmfc0_of, mtc0_of, dmtc0_of, told_from_rs, from_rs_of};

use crate::refusal::Refusal;
use crate::registers::{Cop0, is_wide};

impl Cop0 {
    // `MFC0 rt, rd`: a 32-bit move, so the low half is sign-extended even of a register of 64 bits.
    pub fn mfc0(self, n: u8) -> u64
        ensures { result ≡ mfc0_of self n }
    {
        bits::sign_extend(bits::low32(self.read(n)))
    }

    // `DMFC0 rt, rd`: all 64 bits.
    pub fn dmfc0(self, n: u8) -> u64
        ensures { result ≡ dmfc0_of self n }
    {
        self.read(n)
    }

    // `MTC0 rd, rt`: the low 32 bits. A register of 64 bits takes them sign-extended, which is how software writes a KSEG0
    // address to one.
    #[tactic(auto, unfolding(crate::specs::Access::moved32))]
    pub fn mtc0(mut self, n: u8, value: u64) -> Cop0
        ensures { result ≡ mtc0_of self n value }
    {
        let low = bits::low32(value);
        if is_wide(n) {
            self = self.dmtc0(n, bits::sign_extend(low));
            return self;
        }
        self = self.dmtc0(n, bits::zero_extend(low));
        self
    }

    // `DMTC0 rd, rt`: all 64 bits.
    #[tactic(auto, unfolding(crate::specs::Access::dmtc0_of))]
    pub fn dmtc0(mut self, n: u8, value: u64) -> Cop0
        ensures { result ≡ dmtc0_of self n value }
    {
        self.write_latch = value;
        self.write(n, value)
    }
}

// The access forms.
#[derive(Clone, Copy, PartialEq, Eq)]
pub enum Cop0Op {
    Mfc0,
    Dmfc0,
    Mtc0,
    Dmtc0,
}

impl Cop0Op {
    // The access form that the rs field of a COP0 instruction names. The TLB instructions and ERET, which have bit 4 set,
    // are no access forms. The name is the original's.
    #[tactic(auto, unfolding(crate::specs::Access::from_rs_of, crate::specs::Registers::among))]
    pub fn from_rs(rs: u8) -> Result<Cop0Op, Refusal>
        ensures { told_from_rs result ≡ from_rs_of rs }
    {
        match rs {
            0 => Ok(Cop0Op::Mfc0),
            1 => Ok(Cop0Op::Dmfc0),
            4 => Ok(Cop0Op::Mtc0),
            5 => Ok(Cop0Op::Dmtc0),
            _ => Err(Refusal::Form),
        }
    }
}
