// A line of a name and numbers, written.
ghost use Rattle.std.specs.Prelude.{◌≡◌, ◌+◌, ◌≤◌, leb, length};
ghost use Rattle.spec_base.specs.base.Put.{put, put_at, placed, placed_length};
ghost use Rattle.number_lines.specs.Line.{spaced, numbers_text, line_text};

// A space and a number, at a place where there is room for them; answers the place after them.
fn spaced_at(out: &mut [u8], at: usize, n: u64) -> usize
    requires { at + length (spaced n) ≤ length out.old }
    ensures { (result ≡ at + length (spaced n)) × (out.new ≡ put_at at (spaced n) out.old) }
{
    let w = caption_stamp::digits(n);
    let from = base::put_at(out, at, b" ");
    caption_stamp::last_digits(&mut out[from..], n, w);
    from + w
}

// The same of each number.
fn numbers_at(out: &mut [u8], at: usize, numbers: &[u64]) -> usize
    requires { at + length (numbers_text numbers.now) ≤ length out.old }
    ensures { (result ≡ at + length (numbers_text numbers.now)) × (out.new ≡ put_at at (numbers_text numbers.now) out.old) }
{
    let mut p = at;
    for n in numbers {
        p = spaced_at(out, p, *n);
    }
    p
}

// Whether the numbers, each behind a space, take at most `room` bytes.
fn fits(numbers: &[u64], room: usize) -> bool
    ensures { result ≡ leb (length (numbers_text numbers.now)) room }
{
    let mut left = room;
    for n in numbers {
        let w = caption_stamp::digits(*n);
        if left <= w {
            return false;
        }
        left = left - 1 - w;
    }
    true
}

// The whole line, for which there is room.
fn whole(out: &mut [u8], name: &[u8], numbers: &[u64]) -> usize
    requires { length (line_text name.now numbers.now) ≤ length out.old }
    ensures { (result ≡ length (line_text name.now numbers.now)) × (out.new ≡ put (line_text name.now numbers.now) out.old) }
{
    let a = base::put(out, name);
    let b = numbers_at(out, a, numbers);
    base::put_at(out, b, b"\n")
}

// Writes a name, each number behind a space, and a line end to the start of `out`, and answers their length; where they do not fit, nothing and 0.
pub fn line(out: &mut [u8], name: &[u8], numbers: &[u64]) -> usize
    ensures { (result ≡ placed_length (line_text name.now numbers.now) out.old) × (out.new ≡ placed (line_text name.now numbers.now) out.old) }
{
    if out.len() <= name.len() {
        0
    } else if fits(numbers, out.len() - name.len() - 1) {
        whole(out, name, numbers)
    } else {
        0
    }
}
