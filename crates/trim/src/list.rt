// The whole list: its tokens from the left, and the ranges that they give.
ghost use Rattle.std.specs.Prelude.{◌≡◌, ◌+◌, ◌*◌, ◌≤◌, ◌<◌, length, set, false};
ghost use Rattle.refusals.specs.Numbers.{told};
ghost use Rattle.spec_base.specs.base.Limits.{most_trims, most_places};
ghost use Rattle.spec_base.specs.base.Put.{put};
ghost use Rattle.spec_text.specs.pattern.Find.{first};
ghost use Rattle.spec_text.specs.text.Line.{blank};
ghost use Rattle.spec_trim.specs.trim.Token.{mark};
ghost use Rattle.spec_trim.specs.trim.TrimList.{list_answer, tokens_of, tokens_number, head_number, list_number, ranges_of, parse_of, range_places};
ghost use Rattle.trim.specs.Answer.{parsed_told};

use crate::token::step_of;
use order::DisplayIdx;
use refusals::Refusal;

// Where the first `++` begins, or the length of `s`. Of two bytes whose second is no plus, neither begins one.
fn next_mark(s: &[u8]) -> usize
    ensures { result ≡ first mark s.now }
{
    for k in 0..s.len() / 2 {
        let i = 2 * k;
        if s[i + 1] == b'+' {
            if s[i] == b'+' {
                return i;
            }
            if base::get_or(s, i + 2, 0) == b'+' {
                return i + 1;
            }
        }
    }
    s.len()
}

// The refusals that come before the first token's.
fn head_number(list: &[u8]) -> Result<(), Refusal>
    ensures { told result ≡ head_number list.now }
{
    if base::MOST_LIST_BYTES < list.len() {
        Err(Refusal::ListTooLong)
    } else if utf8::is_utf8(list) {
        Ok(())
    } else {
        Err(Refusal::NotUtf8)
    }
}

// Writes a range at its place.
fn store(ranges: &mut [u32], count: usize, a: DisplayIdx, e: DisplayIdx)
    requires { (count < most_trims) × (most_places ≤ length ranges.old) }
    ensures { ranges.new ≡ set (set ranges.old (count * 2) a.0) (count * 2 + 1) e.0 }
{
    ranges[count * 2] = a.0;
    ranges[count * 2 + 1] = e.0;
}

// Reads the tokens, and writes their ranges from the start of `ranges` on.
fn read_tokens(list: &[u8], ranges: &mut [u32]) -> Result<usize, Refusal>
    requires { (most_places ≤ length ranges.old) × (blank list.now ≡ false) }
    ensures value { parsed_told result ≡ list_answer (tokens_number most_trims 0 (tokens_of list.now)) list.now }
    ensures ranges_after { told result ≡ 0 → ranges.new ≡ put (ranges_of list.now) ranges.old }
{
    let mut t = list;
    let mut prev = DisplayIdx(0);
    for count in 0..base::MOST_TRIMS {
        let k = next_mark(t);
        let r = step_of(prev, base::front(t, k))?;
        store(ranges, count, r.start, r.end);
        if t.len() <= k {
            return Ok(count + 1);
        }
        t = base::rest(t, k + 2);
        prev = r.end;
    }
    Err(Refusal::ListTooLong)
}

// Reads a list into places that are there for it.
fn read(list: &[u8], ranges: &mut [u32]) -> Result<usize, Refusal>
    requires { most_places ≤ length ranges.old }
    ensures value { parsed_told result ≡ list_answer (list_number list.now) list.now }
    ensures count_le_most_trims { (parsed_told result).count ≤ most_trims }
    ensures ranges_after { told result ≡ 0 → ranges.new ≡ put (ranges_of list.now) ranges.old }
{
    head_number(list)?;
    if text::is_blank(list) {
        return Ok(0);
    }
    read_tokens(list, ranges)
}

// Reads a trim list. Answers how many ranges it wrote from the start of `ranges`, two numbers each (a blank list has none), or the refusal; then
// nothing is written.
pub fn parse(list: &[u8], ranges: &mut [u32]) -> Result<usize, Refusal>
    ensures value { parsed_told result ≡ parse_of list.now (length ranges.old) }
    ensures ranges_after { ranges.new ≡ range_places list.now ranges.old }
{
    if ranges.len() < base::MOST_PLACES {
        return Err(Refusal::BadArgument);
    }
    // Kept: (1) no heap: the memory is fixed.
    let mut held = [0; base::MOST_PLACES];
    let count = read(list, &mut held)?;
    let n = count * 2;
    ranges[..n].copy_from_slice(&held[..n]);
    Ok(count)
}

// Answers the refusal of a trim list, if there is one.
pub fn check(list: &[u8]) -> Result<(), Refusal>
    ensures { told result ≡ list_number list.now }
{
    // Kept: (1) no heap: the memory is fixed.
    let mut held = [0; base::MOST_PLACES];
    read(list, &mut held)?;
    Ok(())
}
