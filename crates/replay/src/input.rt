// Parts of a case, read from standard input.
ghost use Rattle.streams.specs.Left.{Drains};

use std::io;
use std::io::Read;

// Reads n bytes that do not fit and throws them away.
fn skip<R: Read>(from: &mut R, n: usize) -> io::Result<()>
    ensures drains { Drains (R.remaining from.old) (R.remaining from.new) }
{
    for _ in 0..n {
        // Kept: (1) no heap: the memory is fixed.
        let mut one = [0u8; 1];
        let got = files_map::read_full(from, &mut one)?;
        if got == 0 {
            return Ok(());
        }
    }
    Ok(())
}

// Reads n bytes to the start of buf where they fit, and answers whether they did.
fn take<R: Read>(from: &mut R, buf: &mut [u8], n: usize) -> io::Result<bool>
    ensures drains { Drains (R.remaining from.old) (R.remaining from.new) }
{
    if buf.len() < n {
        skip(from, n)?;
        return Ok(false);
    }
    files_map::read_full(from, &mut buf[..n])?;
    Ok(true)
}

// Reads three parts, each to a slice of its own, and answers whether all did fit.
pub fn take_parts<R: Read>(
    from: &mut R,
    x: &mut [u8],
    n: usize,
    y: &mut [u8],
    m: usize,
    z: &mut [u8],
    l: usize,
) -> io::Result<bool>
    ensures drains { Drains (R.remaining from.old) (R.remaining from.new) }
{
    let first = take(from, x, n)?;
    let second = take(from, y, m)?;
    let third = take(from, z, l)?;
    Ok(first && second && third)
}
