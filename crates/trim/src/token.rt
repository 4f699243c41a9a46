// One token of a trim list: `Trim(a,b)`.
ghost use Rattle.std.specs.Prelude.{◌≡◌, cond, false, ltb};
ghost use Rattle.spec_text.specs.pattern.Find.{first};
ghost use Rattle.spec_trim.specs.trim.Token.{range_of, bounds_of, pair_of, closed_of, token_of, step_of};
ghost use Rattle.trim.specs.Answer.{token_told};
ghost use Rattle.spec_text.specs.pattern.Piece.{pieces, comma};
ghost use Rattle.spec_text.specs.whitespace.White.{trim};

use order::DisplayIdx;
use refusals::Refusal;
use spec_trim::trim::Range;

fn next_comma(s: &[u8]) -> usize
    ensures { result ≡ first comma s.now }
{
    pattern::find(s, b",")
}

// The range of the frames `a` to `b`, end excluded.
fn range_of(a: u32, b: u32) -> Result<Range, Refusal>
    ensures { token_told result ≡ range_of a b }
{
    if b < a {
        Err(Refusal::Backward)
    } else if b == base::MOST_FRAME {
        Err(Refusal::LastFrame)
    } else {
        Ok(Range {
            start: DisplayIdx(a),
            end: DisplayIdx(b + 1),
        })
    }
}

// The range from the two numbers as they were read.
fn bounds_of(x: Option<u32>, y: Option<u32>) -> Result<Range, Refusal>
    ensures { token_told result ≡ bounds_of x y }
{
    let a = x.ok_or(Refusal::Number)?;
    let b = y.ok_or(Refusal::Number)?;
    range_of(a, b)
}

// Whether `a` is an ASCII byte above the space, so no white space.
fn is_plain(a: u8) -> bool
    ensures { result ≡ cond (ltb a 0x21) false (ltb a 0x80) }
{
    (0x21..0x80).contains(&a)
}

// The slice without the white space at both ends. Most have none, and are told by their first and last byte.
fn bare(s: &[u8]) -> &[u8]
    ensures { result.now ≡ trim s.now }
{
    if is_plain(base::get_or(s, 0, 0)) && is_plain(base::get_or(s, s.len().saturating_sub(1), 0)) {
        s
    } else {
        whitespace::trimmed(s)
    }
}

// The range that `a,b` says: exactly one comma.
fn pair_of(s: &[u8]) -> Result<Range, Refusal>
    ensures { token_told result ≡ pair_of (pieces comma s.now) }
{
    let k = next_comma(s);
    if k < s.len() {
        let u = base::rest(s, k + 1);
        if next_comma(u) < u.len() {
            return Err(Refusal::Shape);
        }
        let x = text::number_to(bare(base::front(s, k)), base::MOST_FRAME);
        let y = text::number_to(bare(u), base::MOST_FRAME);
        return bounds_of(x, y);
    }
    Err(Refusal::Shape)
}

// What stands after `Trim(`: the pair, and a closing bracket as the last byte.
fn closed_of(r: &[u8]) -> Result<Range, Refusal>
    ensures { token_told result ≡ closed_of r.now }
{
    let pair = r.strip_suffix(b")").ok_or(Refusal::Shape)?;
    pair_of(pair)
}

// The range that a trimmed token says.
fn token_of(t: &[u8]) -> Result<Range, Refusal>
    ensures { token_told result ≡ token_of t.now }
{
    let r = t.strip_prefix(b"Trim(").ok_or(Refusal::Shape)?;
    closed_of(r)
}

// The range that a token says after ranges that end at `prev`.
pub fn step_of(prev: DisplayIdx, t: &[u8]) -> Result<Range, Refusal>
    ensures { token_told result ≡ step_of prev.0 t.now }
{
    let r = token_of(whitespace::trimmed(t))?;
    if r.start.0 < prev.0 {
        return Err(Refusal::Crossing);
    }
    Ok(r)
}
