// A caption time as text, written into the rest of an output.
ghost use Rattle.std.specs.Prelude.{◌≡◌, ◌∷◌, ◌≤◌, ◌<◌, length};
ghost use Rattle.spec_base.specs.base.Put.{put, placed, placed_length, placed_at, place_after};
ghost use Rattle.spec_time.specs.caption_stamp.Write.{pad, width, widest, text_with, time_text};

use caption_time::{fraction_digits, hour_digits, kind_bad, units_of};

// The last k decimal digits of n, written to the start of out.
fn put_digits(out: &mut [u8], n: u64, k: usize)
    requires { k ≤ length out.old }
    ensures { out.new ≡ put (pad k n) out.old }
{
    let mut rest = n;
    for i in (0..k).rev() {
        out[i] = b'0' + (rest % 10) as u8;
        rest /= 10;
    }
}

// The last k decimal digits of n, written to the start of out; where they do not fit, nothing.
pub fn last_digits(out: &mut [u8], n: u64, k: usize)
    ensures { out.new ≡ placed (pad k n) out.old }
{
    if k <= out.len() {
        put_digits(out, n, k);
    }
}

// A mark, and then k digits of n.
fn put_part(out: &mut [u8], mark: u8, n: u64, k: usize)
    requires { k < length out.old }
    ensures { out.new ≡ put (mark ∷ pad k n) out.old }
{
    out[0] = mark;
    put_digits(&mut out[1..], n, k);
}

// How many decimal digits n has.
pub fn digits(n: u64) -> usize
    ensures { result ≡ width n }
{
    let mut w = 1;
    let mut rest = n;
    while 10 <= rest {
        rest /= 10;
        w += 1;
    }
    w
}

// The same, at least `least`.
fn digits_of(n: u64, least: usize) -> usize
    ensures { result ≡ widest least n }
{
    digits(n).max(least)
}

fn write_with(units: u64, unit: u64, frac: usize, least: usize, mark: u8, out: &mut [u8]) -> usize
    requires { (1 ≤ unit) × ((frac ≤ 3) × (least ≤ 2)) }
    ensures { (result ≡ placed_length (text_with unit frac least mark units) out.old) × (out.new ≡ placed (text_with unit frac least mark units) out.old) }
{
    let f = units % unit;
    let seconds = units / unit;
    let s = seconds % 60;
    let minutes = seconds / 60;
    let m = minutes % 60;
    let h = minutes / 60;
    let w = digits_of(h, least);
    let size = w + 7 + frac;
    if out.len() < size {
        return 0;
    }
    put_digits(out, h, w);
    put_part(&mut out[w..], b':', m, 2);
    let at = w + 3;
    put_part(&mut out[at..], b':', s, 2);
    let last = w + 6;
    put_part(&mut out[last..], mark, f, frac);
    size
}

// Writes a time to the start of `out`, the rest of the output, and answers its length; where it does not fit, or there is
// no such kind, nothing and 0.
pub fn write_time(units: u64, kind: u32, mark: u8, out: &mut [u8]) -> usize
    ensures { (result ≡ placed_length (time_text kind mark units) out.old) × (out.new ≡ placed (time_text kind mark units) out.old) }
{
    if kind_bad(kind) {
        return 0;
    }
    write_with(
        units,
        u64::from(units_of(kind)),
        fraction_digits(kind),
        hour_digits(kind),
        mark,
        out,
    )
}

// Writes a time from the place `at` on, and answers the place after it; where it does not fit, nothing and `at`.
pub fn write_time_at(units: u64, kind: u32, mark: u8, out: &mut [u8], at: usize) -> usize
    ensures { (result ≡ place_after at (time_text kind mark units) out.old) × (out.new ≡ placed_at at (time_text kind mark units) out.old) }
{
    if out.len() < at {
        return at;
    }
    at + write_time(units, kind, mark, &mut out[at..])
}
