// Lines and their terminators.
ghost use Rattle.std.specs.Prelude.{◌≡◌, true, ◌≤◌, ◌+◌, length, drop};
ghost use Rattle.spec_text.specs.text.Line.{line_length, terminator_length, text_of, terminator_of, blank};

// Whether none of the 16 bytes from i on is LF.
fn lf_free(s: &[u8], i: usize) -> bool
    requires { i + 16 ≤ length s.now }
    ensures { result ≡ true → line_length (drop i s.now) ≡ 16 + line_length (drop (i + 16) s.now) }
{
    let mut found = false;
    for b in &s[i..i + 16] {
        found |= *b == b'\n';
    }
    !found
}

// How many bytes `s` begins with that are no LF, as far as whole blocks of 16 tell.
// Kept: (4) `plain_blocks` of utf8 is alike: one function over both would take the test, its size and its law from the caller.
fn free_blocks(s: &[u8]) -> usize
    ensures { (result ≤ length s.now) × (line_length s.now ≡ result + line_length (drop result s.now)) }
{
    // Kept: the new form is no plainer, since a walk over chunks of 16 would still count the bytes passed.
    let mut i = 0;
    while 16 <= s.len() - i && lf_free(s, i) {
        i += 16;
    }
    i
}

// How many bytes the first line of `s` has, with its LF.
pub fn line_length(s: &[u8]) -> usize
    ensures { result ≡ line_length s.now }
{
    for i in free_blocks(s)..s.len() {
        if s[i] == b'\n' {
            return i + 1;
        }
    }
    s.len()
}

// How many bytes the terminator of a line has.
fn terminator_length(l: &[u8]) -> usize
    ensures { result ≡ terminator_length l.now }
{
    match l {
        [.., b'\r', b'\n'] => 2,
        [.., b'\n'] => 1,
        _ => 0,
    }
}

// A line without its terminator.
pub fn text_of(l: &[u8]) -> &[u8]
    ensures { result.now ≡ text_of l.now }
{
    base::front(l, l.len().saturating_sub(terminator_length(l)))
}

// The terminator of a line.
pub fn terminator_of(l: &[u8]) -> &[u8]
    ensures { result.now ≡ terminator_of l.now }
{
    base::rest(l, l.len().saturating_sub(terminator_length(l)))
}

// Whether `l`, trimmed, is empty.
pub fn is_blank(l: &[u8]) -> bool
    ensures { result ≡ blank l.now }
{
    whitespace::trim_head(l).is_empty()
}
