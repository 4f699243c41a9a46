// The captions of a text as rows: line, 0 or the warning with which it passes, start, end, where its words stand, how many bytes they are.
ghost use Rattle.streams.specs.Left.{Grows};

use number_lines::print_line;
use std::io;
use std::io::Write;

// Two rows of a text that has at most two captions, the place behind them, and the two told numbers.
fn two<W: Write>(to: &mut W, kind: u32, text: &[u8]) -> io::Result<()>
    ensures grows { Grows (W.contents to.old) (W.contents to.new) }
{
    let mut rows = [7u64; 13];
    let mut told = [7u64; 3];
    let number = c_api::retimer_cues(kind, text, &mut rows, &mut told);
    let row = [
        u64::from(number),
        told[0],
        told[1],
        told[2],
        rows[0],
        rows[1],
        rows[2],
        rows[3],
        rows[4],
        rows[5],
        rows[6],
        rows[7],
        rows[8],
        rows[9],
        rows[10],
        rows[11],
        rows[12],
    ];
    print_line(to, b"cues", &row)?;
    Ok(())
}

// One place too few for a caption: 16, and nothing is written.
fn short<W: Write>(to: &mut W, text: &[u8]) -> io::Result<()>
    ensures grows { Grows (W.contents to.old) (W.contents to.new) }
{
    let mut rows = [7u64; 5];
    let mut told = [7u64; 2];
    let number = c_api::retimer_cues(1, text, &mut rows, &mut told);
    print_line(to, b"cues", &[u64::from(number), told[0], told[1], rows[0]])?;
    Ok(())
}

pub fn show<W: Write>(to: &mut W) -> io::Result<()>
    ensures grows { Grows (W.contents to.old) (W.contents to.new) }
{
    two(
        to,
        0,
        b"[Events]\nFormat:Start,End,Text\nDialogue:0:0:0.05,0:0:0.25,hi\nDialogue:x\n",
    )?;
    two(
        to,
        1,
        b"1\n00:00:00,050 --> 00:00:00,250\na\n\n0:0:0,1-->0:0:0,2\nb\nc",
    )?;
    two(
        to,
        2,
        b"WEBVTT\n\n00:01.000 --> 00:02.000\nhi\n\n00:60.000 --> 00:61.000\n",
    )?;
    two(to, 3, b"")?;
    short(to, b"0:0:0,1-->0:0:0,2")
}
