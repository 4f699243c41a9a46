// A string with its escapes, written.
ghost use Rattle.std.specs.Prelude.{◌≡◌, ◌+◌, ◌≤◌, ◌<◌, length};
ghost use Rattle.spec_json.specs.json.Quote.{hex_letter, escaped, escaped_all, quoted};
ghost use Rattle.map_json_write.specs.Written.{Written};

use crate::pieces::bytes_at;

#[tactic(auto, unfolding(spec_json::specs::json::Quote::hex_letter))]
fn hex_letter(n: u8) -> u8
    requires { n < 16 }
    ensures { result ≡ hex_letter n }
{
    if n < 10 { b'0' + n } else { b'a' + (n - 10) }
}

// A byte of a string, with its escape.
fn escaped_at(out: &mut [u8], at: usize, b: u8) -> usize
    requires { at ≤ 900000 }
    ensures { Written at (escaped b) out.old result out.new × (result ≤ at + 6) }
{
    match b {
        b'"' => bytes_at(out, at, b"\\\""),
        b'\\' => bytes_at(out, at, b"\\\\"),
        0x08 => bytes_at(out, at, b"\\b"),
        b'\t' => bytes_at(out, at, b"\\t"),
        b'\n' => bytes_at(out, at, b"\\n"),
        0x0C => bytes_at(out, at, b"\\f"),
        b'\r' => bytes_at(out, at, b"\\r"),
        0x00..=0x1F => {
            let six = [
                b'\\',
                b'u',
                b'0',
                b'0',
                hex_letter(b / 16),
                hex_letter(b % 16),
            ];
            bytes_at(out, at, &six)
        }
        _ => bytes_at(out, at, &[b]),
    }
}

// Each byte of `s` behind the other.
fn escapes_at(out: &mut [u8], at: usize, s: &[u8]) -> usize
    requires { (at ≤ 800000) × (length s.now ≤ 1024) }
    ensures { Written at (escaped_all s.now) out.old result out.new × (result ≤ at + 6144) }
{
    let mut p = at;
    for b in s {
        p = escaped_at(out, p, *b);
    }
    p
}

// A string with its quotation marks.
pub fn quoted_at(out: &mut [u8], at: usize, s: &[u8]) -> usize
    requires { (at ≤ 700000) × (length s.now ≤ 1024) }
    ensures { Written at (quoted s.now) out.old result out.new × (result ≤ at + 6146) }
{
    let p = bytes_at(out, at, b"\"");
    let q = escapes_at(out, p, s);
    bytes_at(out, q, b"\"")
}
