// What is sure of a caption whose times are known only roughly.
ghost use Rattle.streams.specs.Left.{Grows};

use ask_rough::Judged;
use std::io;
use std::io::Write;

// The bounds are start low, start high, end low and end high, in ticks (request 2.11).
pub fn print_rough<W: Write>(to: &mut W, map: &[u64], bounds: &[u64]) -> io::Result<()>
    ensures grows { Grows (W.contents to.old) (W.contents to.new) }
{
    let j = ask_rough::rough(
        map,
        base::get_or(bounds, 0, 0),
        base::get_or(bounds, 1, 0),
        base::get_or(bounds, 2, 0),
        base::get_or(bounds, 3, 0),
    );
    match j {
        Judged::Refused(k) => {
            files_map::print_number(to, b"refused ", k)?;
        }
        Judged::SurelyKept => {
            streams::write_text(to, b"rough kept\n")?;
        }
        Judged::SurelyDropped => {
            streams::write_text(to, b"rough dropped\n")?;
        }
        Judged::Unsure => {
            streams::write_text(to, b"rough unsure\n")?;
        }
    }
    Ok(())
}
