// Lent bytes: cleared, copied, and read and written as numbers, the highest byte first. A place stands beside the bytes, and
// they are not cut there, since a place past their end is no mistake here.
ghost use Rattle.std.specs.Prelude.{◌≡◌, ◌+◌, ◌*◌, ◌^◌, ◌<◌, ◌≤◌, [], ◌∷◌, leb, length, replicate};
ghost use Rattle.lines.specs.Bytes.{big_endian, eight, copied, line_if, number_at, number_put};

pub fn clear(lines: &mut [u8])
    ensures { lines.new ≡ replicate (length lines.old) 0 }
{
    lines.fill(0);
}

// Copies `bytes` to a place; all else stays as it was.
#[tactic(auto, unfolding(crate::specs::Bytes::copied))]
pub fn copy(lines: &mut [u8], at: usize, bytes: &[u8])
    ensures { lines.new ≡ copied lines.old at bytes.now }
{
    if within(lines.len(), at, bytes.len()) {
        lines[at..at + bytes.len()].copy_from_slice(bytes);
    }
}

// A line, if it is asked for; zeros if not, as `line_if` has it.
#[tactic(auto, unfolding(crate::specs::Bytes::line_if))]
pub fn line<const N: usize>(lines: &[u8], at: usize, asked: bool) -> [u8; N]
    ensures { result ≡ line_if N asked lines.now at }
{
    let mut line = [0; N];
    if !asked {
        return line;
    }
    if within(lines.len(), at, N) {
        line.copy_from_slice(&lines[at..at + N]);
    }
    line
}

// The number that `len` bytes at a place are, up to eight of them.
#[tactic(auto, unfolding(crate::specs::Bytes::number_at))]
pub fn big_endian(lines: &[u8], at: usize, len: usize) -> u64
    ensures { result ≡ number_at lines.now at len }
{
    if 8 < len {
        return 0;
    }
    if within(lines.len(), at, len) {
        return joined(&lines[at..at + len]);
    }
    0
}

// The low `len` bytes of a value go to a place, up to eight of them.
#[tactic(auto, unfolding(crate::specs::Bytes::number_put))]
pub fn put_big_endian(lines: &mut [u8], at: usize, len: usize, value: u64)
    ensures { lines.new ≡ number_put lines.old at len value }
{
    if 8 < len {
        return;
    }
    let bytes = eight_bytes(value);
    copy(lines, at, &bytes[8 - len..8]);
}

// Are `n` bytes at a place within `len`? By a difference, since the sum that a range for `get` is made of need not fit.
fn within(len: usize, at: usize, n: usize) -> bool
    ensures { result ≡ leb (at + n) len }
{
    if len < at {
        return false;
    }
    n <= len - at
}

// Four and eight bytes, which most accesses have, are joined without a loop: they compile to one load.
fn joined(bytes: &[u8]) -> u64
    requires { length bytes.now ≤ 8 }
    ensures { result ≡ big_endian bytes.now }
{
    if bytes.len() == 4 {
        return four(bytes[0], bytes[1], bytes[2], bytes[3]);
    }
    if bytes.len() == 8 {
        let high = four(bytes[0], bytes[1], bytes[2], bytes[3]);
        let low = four(bytes[4], bytes[5], bytes[6], bytes[7]);
        return both(high, low);
    }
    joined_each(bytes)
}

#[tactic(auto, unfolding(crate::specs::Bytes::joined))]
fn four(a: u8, b: u8, c: u8, d: u8) -> u64
    ensures value { result ≡ big_endian (a ∷ b ∷ c ∷ d ∷ []) }
    ensures upper_bound { result < 2 ^ 32 }
{
    u32::from_be_bytes([a, b, c, d]) as u64
}

// Two halves of a word: `u64::from_be_bytes` would want all eight bytes written out again.
fn both(high: u64, low: u64) -> u64
    requires { (high < 2 ^ 32) × (low < 2 ^ 32) }
    ensures { result ≡ high * 2 ^ 32 + low }
{
    high * 0x1_0000_0000 + low
}

fn joined_each(bytes: &[u8]) -> u64
    requires { length bytes.now ≤ 8 }
    ensures { result ≡ big_endian bytes.now }
{
    let mut value: u64 = 0;
    for b in bytes {
        value = value * 256 + *b as u64;
    }
    value
}

fn eight_bytes(value: u64) -> [u8; 8]
    ensures { result ≡ eight value }
{
    value.to_be_bytes()
}
