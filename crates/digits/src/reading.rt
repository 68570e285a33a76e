// Digits that are read.
ghost use Rattle.std.specs.Prelude.{◌≡◌};
ghost use Rattle.digits.specs.Reading.{digit_told, number_told};
ghost use Rattle.digits.specs.Answers.{told_digit, told_number};

// A digit's value, in either letter case, if the byte is one.
#[tactic(auto, unfolding(crate::specs::Reading::digit_told, crate::specs::Reading::is_digit, crate::specs::Reading::worth, crate::specs::Reading::within))]
pub fn digit(b: u8) -> Option<u8>
    ensures { told_digit result ≡ digit_told b }
{
    match b {
        b'0'..=b'9' => Some(b - b'0'),
        b'A'..=b'F' => Some(b - b'A' + 10),
        b'a'..=b'f' => Some(b - b'a' + 10),
        _ => None,
    }
}

// The number that a word writes, if it writes one: 1 to 16 digits, the first the highest.
pub fn parse(word: &[u8]) -> Option<u64>
    ensures { told_number result ≡ number_told word.now }
{
    if word.len() < 1 {
        return None;
    }
    if 16 < word.len() {
        return None;
    }
    let mut value: u64 = 0;
    for b in word {
        value = value * 16 + digit(*b)? as u64;
    }
    Some(value)
}
