// A caption time as text, read.
ghost use Rattle.std.specs.Prelude.{◌≡◌, ◌+◌, ◌*◌, ◌≤◌, ◌<◌, IfSome};
ghost use Rattle.spec_base.specs.base.Limits.{most_hours, most_minutes, most_seconds};
ghost use Rattle.spec_text.specs.pattern.Find.{up_to, past};
ghost use Rattle.spec_time.specs.caption_stamp.Read.{colon, time_from, time_with, wide_by, wide_from, minutes_on, vtt_time, mark_in, time_in, Below};
ghost use Rattle.caption_stamp.specs.Plain.{Pair, Parts, Read};

use caption_time::{kind_bad, mark_of, units_of};
use spec_time::caption_stamp::Stamp;

// The units of hours, minutes, seconds and a fraction.
fn units_from(h: u32, m: u32, s: u32, f: u32, unit: u32) -> u64
    requires { (unit ≤ 1000) × ((h ≤ most_hours) × ((m ≤ most_minutes) × ((s ≤ most_seconds) × (f ≤ 999)))) }
    ensures { result ≡ ((h * 60 + m) * 60 + s) * unit + f }
{
    let minutes = u64::from(h) * 60 + u64::from(m);
    let seconds = minutes * 60 + u64::from(s);
    seconds * u64::from(unit) + u64::from(f)
}

// The four parts put together.
fn join(
    h: Option<u32>,
    m: Option<u32>,
    s: Option<u32>,
    f: Option<u32>,
    unit: u32,
    mark: u8,
) -> Option<Stamp>
    requires { (unit ≤ 1000) × (Below most_hours h × (Below most_minutes m × (Below most_seconds s × Below 999 f))) }
    ensures { result ≡ time_from unit mark h m s f }
{
    let hours = h?;
    let minutes = m?;
    let seconds = s?;
    let fraction = f?;
    let units = units_from(hours, minutes, seconds, fraction, unit);
    Some(Stamp { units, mark })
}

fn before_colon(s: &[u8]) -> &[u8]
    ensures { result.now ≡ up_to colon s.now }
{
    pattern::up_to(s, b":")
}

fn after_colon(s: &[u8]) -> &[u8]
    ensures { result.now ≡ past colon s.now }
{
    pattern::past(s, b":")
}

fn read_with(text: &[u8], unit: u32, mark: u8) -> Option<Stamp>
    requires { (1 ≤ unit) × (unit ≤ 1000) }
    ensures { result ≡ time_with unit mark text.now }
{
    let sign = [mark];
    let h = text::number_to(before_colon(text), base::MOST_HOURS);
    let rest = after_colon(text);
    let m = text::number_to(before_colon(rest), base::MOST_MINUTES);
    let last = after_colon(rest);
    let s = text::number_to(pattern::up_to(last, &sign), base::MOST_SECONDS);
    let f = text::number_to(pattern::past(last, &sign), unit - 1);
    join(h, m, s, f, unit, mark)
}

// The mark before the fraction of a trimmed text.
fn mark_in(text: &[u8], kind: u32) -> u8
    ensures { result ≡ mark_in kind text.now }
{
    if kind != 1 {
        mark_of(kind)
    } else if pattern::has(after_colon(after_colon(text)), b",") {
        b','
    } else {
        b'.'
    }
}

// Exactly n digits, the value at most `most`.
fn wide_by(s: &[u8], n: usize, most: u32) -> Option<u32>
    ensures { result ≡ wide_by n most s.now }
{
    if s.len() == n {
        return text::digits_to(s, most);
    }
    None
}

// Two digits or more, the value at most `most`.
fn wide_from(s: &[u8], most: u32) -> Option<u32>
    ensures { result ≡ wide_from most s.now }
{
    if s.len() < 2 {
        return None;
    }
    text::digits_to(s, most)
}

// mm:ss.ttt behind the hours h.
fn minutes_on(h: Option<u32>, text: &[u8]) -> Option<Stamp>
    requires { Below most_hours h }
    ensures { result ≡ minutes_on h text.now }
{
    let m = wide_by(before_colon(text), 2, base::MOST_MINUTES);
    let last = after_colon(text);
    let s = wide_by(pattern::up_to(last, b"."), 2, base::MOST_SECONDS);
    let f = wide_by(pattern::past(last, b"."), 3, 999);
    join(h, m, s, f, 1000, b'.')
}

// A time of WebVTT: hours stand before the first of two colons.
fn read_vtt(text: &[u8]) -> Option<Stamp>
    ensures { result ≡ vtt_time text.now }
{
    let rest = after_colon(text);
    if pattern::has(rest, b":") {
        let h = wide_from(before_colon(text), base::MOST_HOURS);
        return minutes_on(h, rest);
    }
    let none: u32 = 0;
    minutes_on(Some(none), text)
}

// The value of two digits; none where one of them is no digit.
fn pair(a: u8, b: u8) -> Option<u32>
    ensures { IfSome result (λ v. Pair a b v) }
{
    if matches!(a, b'0'..=b'9') && matches!(b, b'0'..=b'9') {
        Some(u32::from(a - b'0') * 10 + u32::from(b - b'0'))
    } else {
        None
    }
}

// The units of four parts within their limits, the hours below 100.
fn parts_units(h: u32, m: u32, s: u32, f: u32, unit: u32) -> Option<u64>
    requires { unit ≤ 1000 }
    ensures { IfSome result (λ v. Parts h m s f unit v) }
{
    if h > 99 || m > base::MOST_MINUTES || s > base::MOST_SECONDS || f >= unit {
        return None;
    }
    Some(units_from(h, m, s, f, unit))
}

// The units of h:mm:ss.ff, digits alone and each part within its limit.
fn plain_ass(t: &[u8]) -> Option<u64>
    ensures { IfSome result (λ v. Read 0 t.now v) }
{
    if t.len() != 10 || t[1] != b':' || t[4] != b':' || t[7] != b'.' {
        return None;
    }
    let h = pair(b'0', t[0])?;
    let m = pair(t[2], t[3])?;
    let s = pair(t[5], t[6])?;
    let f = pair(t[8], t[9])?;
    parts_units(h, m, s, f, 100)
}

// The units of hh:mm:ss,fff, digits alone and each part within its limit.
fn plain_srt(t: &[u8]) -> Option<u64>
    ensures { IfSome result (λ v. Read 1 t.now v) }
{
    if t.len() != 12 || t[2] != b':' || t[5] != b':' || t[8] != b',' {
        return None;
    }
    let h = pair(t[0], t[1])?;
    let m = pair(t[3], t[4])?;
    let s = pair(t[6], t[7])?;
    let x = pair(b'0', t[9])?;
    let y = pair(t[10], t[11])?;
    parts_units(h, m, s, x * 100 + y, 1000)
}

// The units of a trimmed time in the form that most texts have.
fn plain_units(t: &[u8], kind: u32) -> Option<u64>
    ensures { IfSome result (λ v. Read kind t.now v) }
{
    match kind {
        0 => plain_ass(t),
        1 => plain_srt(t),
        _ => None,
    }
}

// Reads a time, trimmed first, and tells the mark that it saw.
pub fn read_time(text: &[u8], kind: u32) -> Option<Stamp>
    ensures { result ≡ time_in kind text.now }
{
    if kind_bad(kind) {
        return None;
    }
    let t = whitespace::trimmed(text);
    if kind == 2 {
        return read_vtt(t);
    }
    if let Some(units) = plain_units(t, kind) {
        return Some(Stamp {
            units,
            mark: mark_of(kind),
        });
    }
    read_with(t, units_of(kind), mark_in(t, kind))
}
