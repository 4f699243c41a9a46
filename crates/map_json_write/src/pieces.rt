// Pieces of the text: each answers the place after it, and writes itself where it fits.
ghost use Rattle.std.specs.Prelude.{◌++◌, ◌+◌, ◌≤◌, length};
ghost use Rattle.spec_json.specs.json.Quote.{decimal};
ghost use Rattle.map_json_write.specs.Written.{Written};

pub fn bytes_at(out: &mut [u8], at: usize, s: &[u8]) -> usize
    requires { (at ≤ 1000000) × (length s.now ≤ 10000) }
    ensures { Written at s.now out.old result out.new }
{
    base::put_at(out, at, s);
    at + s.len()
}

fn decimal_at(out: &mut [u8], at: usize, n: u64) -> usize
    requires { at ≤ 1000000 }
    ensures { Written at (decimal n) out.old result out.new × (result ≤ at + 20) }
{
    let w = caption_stamp::digits(n);
    let end = at + w;
    if out.len() < end {
        return end;
    }
    caption_stamp::last_digits(&mut out[at..], n, w);
    end
}

// A number behind a text.
pub fn named_at(out: &mut [u8], at: usize, lead: &[u8], n: u64) -> usize
    requires { (at ≤ 900000) × (length lead.now ≤ 64) }
    ensures { Written at (lead.now ++ decimal n) out.old result out.new × (result ≤ at + 84) }
{
    let p = bytes_at(out, at, lead);
    decimal_at(out, p, n)
}
