// The ASS and the SRT text of the worked lists of calls (crates/example), each in one call; then a call that is lent one told number too few.
ghost use Rattle.streams.specs.Left.{Grows};

use number_lines::print_line;
use std::io;
use std::io::Write;

fn text<W: Write>(to: &mut W, kind: u32, map: &[u64], text: &[u8]) -> io::Result<()>
    ensures grows { Grows (W.contents to.old) (W.contents to.new) }
{
    // Kept: (1) no heap: the memory is fixed.
    let mut out = [0u8; 33473];
    let mut warnings = [0u64; 4174];
    let mut told = [0u64; 7];
    let number = c_api::retimer_text(kind, 30000, map, text, &mut out, &mut warnings, &mut told);
    print_line(
        to,
        b"text",
        &[
            u64::from(number),
            told[0],
            told[1],
            told[2],
            told[3],
            told[4],
            told[5],
            told[6],
        ],
    )?;
    print_line(
        to,
        b"warned",
        &[
            0,
            warnings[0],
            warnings[1],
            warnings[2],
            warnings[3],
            warnings[4],
            warnings[5],
        ],
    )?;
    streams::write_text(to, base::front(&out, told[0] as usize))?;
    streams::write_text(to, b"\n")
}

// One told number too few: 16, and nothing is written.
fn short<W: Write>(to: &mut W, map: &[u64], text: &[u8]) -> io::Result<()>
    ensures grows { Grows (W.contents to.old) (W.contents to.new) }
{
    // Kept: (1) no heap: the memory is fixed.
    let mut out = [0u8; 33473];
    let mut warnings = [0u64; 4174];
    let mut told = [7u64; 6];
    let number = c_api::retimer_text(0, 30000, map, text, &mut out, &mut warnings, &mut told);
    print_line(
        to,
        b"text",
        &[
            u64::from(number),
            told[0],
            told[1],
            told[2],
            told[3],
            told[4],
            told[5],
        ],
    )?;
    Ok(())
}

pub fn show<W: Write>(to: &mut W, map: &[u64]) -> io::Result<()>
    ensures grows { Grows (W.contents to.old) (W.contents to.new) }
{
    text(
        to,
        0,
        map,
        b"[Events]\nFormat:Start,End\nDialogue:0:0:0.05,0:0:0.25\nDialogue:0:0:0.12,0:0:0.20\nDialogue:0:0:0.21\nDialogue:0:0:0.21,0:0:0.25\nDialogue:0:0:0.0,0:0:0.0\nDialogue:0:0:0.13,0:0:0.14\nDialogue:a\nDialogue:b\nComment:c\nDialogue:0:0:0.20,0:0:0.21",
    )?;
    text(
        to,
        1,
        map,
        b"1\n00:00:00,050 --> 00:00:00,250\na\n\n2\n00:00:00,120 --> 00:00:00,200\nb\n\n3\n00:00:00,210 --> 00:00:00,250\nc\n\n4\n0:0:0,0-->0:0:0,0\n\n0:0:0,130-->0:0:0,140\n\n0:0:0,200-->0:0:0,210",
    )?;
    short(to, map, b"[Events]\n")
}
