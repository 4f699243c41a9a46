// UTF-8 (RFC 3629).
ghost use Rattle.std.specs.Prelude.{◌≡◌, true, ◌≤◌, ◌+◌, length, drop};
ghost use Rattle.spec_text.specs.utf8.Utf8.{ascii_run, lead_len, second_low, second_high, tail, width_by, char_width, utf8, code_by, code_head};

// How many bytes a character has whose first byte is `a`.
// Kept: 0 for none, as in the clause of `char_width`, which may not change.
fn lead_len(a: u8) -> usize
    ensures { result ≡ lead_len a }
{
    match a {
        0x00..=0x7F => 1,
        0xC2..=0xDF => 2,
        0xE0..=0xEF => 3,
        0xF0..=0xF4 => 4,
        _ => 0,
    }
}

fn second_low(a: u8) -> u8
    ensures { result ≡ second_low a }
{
    match a {
        0xE0 => 0xA0,
        0xF0 => 0x90,
        _ => 0x80,
    }
}

fn second_high(a: u8) -> u8
    ensures { result ≡ second_high a }
{
    match a {
        0xED => 0x9F,
        0xF4 => 0x8F,
        _ => 0xBF,
    }
}

// Whether `b` is a continuation byte.
pub fn is_tail(b: u8) -> bool
    ensures { result ≡ tail b }
{
    matches!(b, 0x80..=0xBF)
}

// Kept: (4) `n` is a width: each test cuts off a case, and a `match` would say the same tests as guards.
fn width_by(n: usize, a: u8, b: u8, c: u8, d: u8) -> usize
    ensures { result ≡ width_by n a b c d }
{
    if n < 2 {
        n
    } else if b < second_low(a) || second_high(a) < b {
        0
    } else if n == 2 {
        2
    } else if !is_tail(c) {
        0
    } else if n == 3 {
        3
    } else if is_tail(d) {
        4
    } else {
        0
    }
}

// The width of the character at the head of `s`; 0: `s` begins with none.
pub fn char_width(s: &[u8]) -> usize
    ensures { result ≡ char_width s.now }
{
    let a = base::get_or(s, 0, 0);
    if a < 0x80 {
        1
    } else {
        width_by(
            lead_len(a),
            a,
            base::get_or(s, 1, 0),
            base::get_or(s, 2, 0),
            base::get_or(s, 3, 0),
        )
    }
}

// Whether the 32 bytes from i on are below 80: the largest is.
fn plain(s: &[u8], i: usize) -> bool
    requires { i + 32 ≤ length s.now }
    ensures { result ≡ true → ascii_run (drop i s.now) ≡ 32 + ascii_run (drop (i + 32) s.now) }
{
    let mut most: u8 = 0;
    for b in &s[i..i + 32] {
        most = most.max(*b);
    }
    most < 0x80
}

// How many bytes below 80 `s` begins with, as far as whole blocks of 32 tell.
// Kept: (4) `free_blocks` of text is alike: one function over both would take the test, its size and its law from the caller.
fn plain_blocks(s: &[u8]) -> usize
    ensures { (result ≤ length s.now) × (ascii_run s.now ≡ result + ascii_run (drop result s.now)) }
{
    // Kept: the new form is no plainer, since a walk over chunks of 32 would still count the bytes passed.
    let mut i = 0;
    while 32 <= s.len() - i && plain(s, i) {
        i += 32;
    }
    i
}

// How many bytes below 80 `s` begins with.
fn ascii_run(s: &[u8]) -> usize
    ensures { result ≡ ascii_run s.now }
{
    for i in plain_blocks(s)..s.len() {
        if s[i] >= 0x80 {
            return i;
        }
    }
    s.len()
}

// Whether these are a character of three bytes whose first is E1 to EC.
fn three(a: u8, b: u8, c: u8) -> bool
    ensures { result ≡ true → (0xE1 ≤ a) × (a ≤ 0xEC) × (0x80 ≤ b) × (b ≤ 0xBF) × (0x80 ≤ c) × (c ≤ 0xBF) }
{
    matches!((a, b, c), (0xE1..=0xEC, 0x80..=0xBF, 0x80..=0xBF))
}

// Whether `s` is well-formed UTF-8.
pub fn is_utf8(s: &[u8]) -> bool
    ensures { result ≡ utf8 s.now }
{
    let mut t = s;
    while let [a, ..] = t {
        if *a < 0x80 {
            t = base::rest(t, ascii_run(t));
            continue;
        }
        t = match t {
            [a, b, c, u @ ..] if three(*a, *b, *c) => match u {
                [d, e, f, v @ ..] if three(*d, *e, *f) => v,
                _ => u,
            },
            _ => match char_width(t) {
                0 => return false,
                w => base::rest(t, w),
            },
        };
    }
    true
}

fn code_by(w: usize, a: u8, b: u8, c: u8, d: u8) -> u32
    ensures { result ≡ code_by w a b c d }
{
    let x = u32::from(a);
    let y = u32::from(b);
    let z = u32::from(c);
    let q = u32::from(d);
    match w {
        1 => x,
        2 => x % 32 * 64 + y % 64,
        3 => x % 16 * 4096 + y % 64 * 64 + z % 64,
        _ => x % 8 * 262144 + y % 64 * 4096 + z % 64 * 64 + q % 64,
    }
}

// The code point of the character at the head of `s`.
pub fn code_head(s: &[u8]) -> u32
    ensures { result ≡ code_head s.now }
{
    code_by(
        char_width(s),
        base::get_or(s, 0, 0),
        base::get_or(s, 1, 0),
        base::get_or(s, 2, 0),
        base::get_or(s, 3, 0),
    )
}
