// Fields of a word.
ghost use Rattle.std.specs.Prelude.{◌≡◌};
ghost use Rattle.bits.specs.Field.{field_of, with_field_of};

// Bits hi..lo of `x` as a number; 0 where no bit lies there.
#[tactic(auto, using(crate::proofs::FieldLaws::unit, crate::proofs::FieldLaws::field_none, crate::proofs::FieldLaws::field_past, crate::proofs::FieldLaws::field_all, crate::proofs::FieldLaws::field_part))]
pub fn field(x: u64, hi: u32, lo: u32) -> u64
    ensures { result ≡ field_of x hi lo }
{
    if hi < lo {
        return 0;
    }
    if 63 < lo {
        return 0;
    }
    let down = x >> lo;
    let above = hi - lo;
    if 62 < above {
        return down;
    }
    down % (1u64 << (above + 1))
}

// `x` with its bits hi..lo replaced by the low bits of `v`; `x` itself where hi..lo is no part of a word.
pub fn with_field(x: u64, hi: u32, lo: u32, v: u64) -> u64
    ensures { result ≡ with_field_of x hi lo v }
{
    if hi < lo {
        return x;
    }
    if 63 < hi {
        return x;
    }
    let unit = 1u64 << lo;
    let old = field(x, hi, lo) * unit;
    let new = field(v, hi - lo, 0) * unit;
    x - old + new
}
