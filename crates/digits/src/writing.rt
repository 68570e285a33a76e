// Digits that are written, in lowercase.
ghost use Rattle.std.specs.Prelude.{◌≡◌, ◌<◌};
ghost use Rattle.digits.specs.Writing.{lowercase_of, place_of, has_room, put_of};

// Writes the `width` lowest digits of a number at a place, the highest first, and says whether they found room. Where they did
// not, nothing is written.
pub fn put(out: &mut [u8], at: usize, width: usize, value: u64) -> bool
    ensures { (result ≡ has_room out.old at width)
        × (out.new ≡ put_of out.old at width value) }
{
    if out.len() < at {
        return false;
    }
    if out.len() - at < width {
        return false;
    }
    for i in 0..width {
        out[at + i] = place(value, width - i - 1);
    }
    true
}

// The digit at place `k`, the lowest at 0. From place 16 on a word has zeros.
fn place(value: u64, k: usize) -> u8
    ensures { result ≡ place_of value k }
{
    if 15 < k {
        return b'0';
    }
    let low = 4 * k as u32;
    lowercase(bits::field(value, low + 3, low) as u8)
}

#[tactic(auto, unfolding(crate::specs::Writing::lowercase_of))]
fn lowercase(d: u8) -> u8
    requires { d < 16 }
    ensures { result ≡ lowercase_of d }
{
    if d < 10 {
        return b'0' + d;
    }
    b'a' + (d - 10)
}
