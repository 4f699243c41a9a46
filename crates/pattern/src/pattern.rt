// Patterns in a text.
ghost use Rattle.std.specs.Prelude.{◌≡◌, ◌<◌, length, drop};
ghost use Rattle.spec_text.specs.pattern.Find.{starts, equals, first, contains, up_to, past};

// Whether `s` begins with `p`. Most texts are ruled out by the first byte.
pub fn starts_with(s: &[u8], p: &[u8]) -> bool
    ensures { result ≡ starts p.now s.now }
{
    if 0 < s.len() && 0 < p.len() && s[0] != p[0] {
        return false;
    }
    s.starts_with(p)
}

// Whether `s` and `p` are the same bytes.
pub fn equals(s: &[u8], p: &[u8]) -> bool
    ensures { result ≡ equals p.now s.now }
{
    p == s
}

// Whether `p` stands in `s` from `i` on. Most places are ruled out by the first byte.
fn stands(s: &[u8], i: usize, p: &[u8]) -> bool
    requires { i < length s.now }
    ensures { result ≡ starts p.now (drop i s.now) }
{
    match p {
        [] => true,
        [first, others @ ..] => s[i] == *first && s[i + 1..].starts_with(others),
    }
}

// The first position in `s` from which `p` stands, or the length of `s` where there is none.
pub fn find(s: &[u8], p: &[u8]) -> usize
    ensures { result ≡ first p.now s.now }
{
    for i in 0..s.len() {
        if stands(s, i, p) {
            return i;
        }
    }
    s.len()
}

// Whether `p` stands somewhere in `s`.
pub fn has(s: &[u8], p: &[u8]) -> bool
    ensures { result ≡ contains p.now s.now }
{
    find(s, p) < s.len()
}

// What stands before the first `p` in `s`: all of it where there is none.
pub fn up_to<'a>(s: &'a [u8], p: &[u8]) -> &'a [u8]
    ensures { result.now ≡ up_to p.now s.now }
{
    base::front(s, find(s, p))
}

// What stands after the first `p` in `s`: nothing where there is none.
pub fn past<'a>(s: &'a [u8], p: &[u8]) -> &'a [u8]
    ensures { result.now ≡ past p.now s.now }
{
    let t = base::rest(s, find(s, p));
    base::rest(t, p.len())
}
