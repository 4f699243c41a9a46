// Unicode White_Space, and texts stripped of it.
ghost use Rattle.std.specs.Prelude.{◌≡◌, cond};
ghost use Rattle.spec_text.specs.whitespace.White.{white, white_high, white_head, ends_white, white_tail, trim_head, trim_tail, trim};

use utf8::{char_width, code_head};

// Whether the code point `u`, at least U+2000 (below it the answer is no), has the property White_Space.
fn is_white_high(u: u32) -> bool
    ensures { result ≡ white_high u }
{
    matches!(
        u,
        0x2000..=0x200A | 0x2028 | 0x2029 | 0x202F | 0x205F | 0x3000
    )
}

// Whether the code point `u` has the property White_Space.
fn is_white(u: u32) -> bool
    ensures { result ≡ white u }
{
    match u {
        0x9..=0xD | 0x20 | 0x85 | 0xA0 | 0x1680 => true,
        _ => is_white_high(u),
    }
}

// The width of the byte `a`, below 80, as a white-space character; 0: it is none.
// Kept: 0 for none, as in the clause of `utf8::char_width`, which may not change.
fn ascii_white(a: u8) -> usize
    ensures { result ≡ cond (white a) 1 0 }
{
    usize::from(is_white(u32::from(a)))
}

// The same as `white_head`, whatever the first byte: apart from it, so that the short way through it is inlined.
fn white_wide(s: &[u8]) -> usize
    ensures { result ≡ white_head s.now }
{
    if is_white(code_head(s)) {
        char_width(s)
    } else {
        0
    }
}

// The width of the white-space character at the head of `s`; 0: `s` begins with none.
fn white_head(s: &[u8]) -> usize
    ensures { result ≡ white_head s.now }
{
    let a = base::get_or(s, 0, 0);
    if a < 0x80 {
        ascii_white(a)
    } else {
        white_wide(s)
    }
}

// Whether the last `k` bytes of `s` are a white-space character.
fn ends_white(s: &[u8], k: usize) -> bool
    ensures { result ≡ ends_white s.now k }
{
    white_wide(base::last_part(s, k)) == k
}

// The width of the white-space character that `s` ends with; 0: it ends with none.
fn white_tail(s: &[u8]) -> usize
    ensures { result ≡ white_tail s.now }
{
    let a = base::get_or(s, s.len().saturating_sub(1), 0);
    if a < 0x80 {
        ascii_white(a)
    } else if ends_white(s, 1) {
        1
    } else if ends_white(s, 2) {
        2
    } else if ends_white(s, 3) {
        3
    } else {
        0
    }
}

// The slice without the white space at its head.
pub fn trim_head(s: &[u8]) -> &[u8]
    ensures { result.now ≡ trim_head s.now }
{
    let mut t = s;
    while !t.is_empty() {
        let w = white_head(t);
        if w == 0 {
            return t;
        }
        t = base::rest(t, w);
    }
    t
}

// The slice without the white space at its end.
pub fn trim_tail(s: &[u8]) -> &[u8]
    ensures { result.now ≡ trim_tail s.now }
{
    let mut n = s.len();
    while n > 0 {
        let w = white_tail(base::front(s, n));
        if w == 0 {
            return base::front(s, n);
        }
        n = n.saturating_sub(w);
    }
    base::front(s, 0)
}

// The slice without the white space at both ends.
pub fn trimmed(s: &[u8]) -> &[u8]
    ensures { result.now ≡ trim s.now }
{
    trim_tail(trim_head(s))
}
