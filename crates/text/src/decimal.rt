// Decimal numbers with an inclusive bound.
ghost use Rattle.std.specs.Prelude.{◌≡◌};
ghost use Rattle.spec_text.specs.text.Number.{digit, natural, number};

pub fn is_digit(b: u8) -> bool
    ensures { result ≡ digit b }
{
    b.is_ascii_digit()
}

// One or more digits whose value is at most `most`.
pub fn digits_to(s: &[u8], most: u32) -> Option<u32>
    ensures { result ≡ natural most s.now }
{
    if s.is_empty() {
        return None;
    }
    let limit = u64::from(most);
    let mut v: u64 = 0;
    for b in s {
        if !is_digit(*b) {
            return None;
        }
        v = v * 10 + u64::from(*b - b'0');
        if limit < v {
            return None;
        }
    }
    Some(v as u32)
}

// An optional `+` and one or more digits, the value at most `most`.
pub fn number_to(s: &[u8], most: u32) -> Option<u32>
    ensures { result ≡ number most s.now }
{
    match s {
        [b'+', digits @ ..] => digits_to(digits, most),
        _ => digits_to(s, most),
    }
}
