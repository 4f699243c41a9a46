// The lengths that are lent, the session, the text, and what is told of it.
ghost use Rattle.std.specs.Prelude.{◌≡◌, ◌≤◌, length};
ghost use Rattle.spec_base.specs.base.Put.{put};
ghost use Rattle.refusals.specs.Numbers.{told};
ghost use Rattle.spec_runs.specs.one_call.Text.{lengths_fault, Retimed};
ghost use Rattle.spec_runs.specs.one_call.Ran.{tells_of};

use crate::running::run_text;
use refusals::Refusal;
use spec_runs::one_call::Ran;

// 16 where the text is too long or too little is lent for it.
fn lengths_fault(text: usize, out: usize, places: usize, lent: usize) -> Result<(), Refusal>
    ensures { told result ≡ lengths_fault text out places lent }
{
    if (base::MOST_TAKEN as usize) < text {
        return Err(Refusal::BadArgument);
    }
    if out < 3 * text + base::LEAST_OUTPUT {
        return Err(Refusal::BadArgument);
    }
    if places < text / 3 + base::LEAST_PLACES {
        return Err(Refusal::BadArgument);
    }
    if lent < 7 {
        return Err(Refusal::BadArgument);
    }
    Ok(())
}

// Seven numbers: both lengths, the four counts, the bytes taken.
fn tell(ran: Ran, taken: usize, told: &mut [u64])
    requires { 7 ≤ length told.old }
    ensures { told.new ≡ put (tells_of ran taken) told.old }
{
    let counts = ran.counts;
    told[..7].copy_from_slice(&[
        ran.written as u64,
        ran.warned as u64,
        u64::from(counts.shifted),
        u64::from(counts.clipped),
        u64::from(counts.dropped),
        u64::from(counts.passed),
        taken as u64,
    ]);
}

// 15 or 16, and nothing is written; else the text's number, with output, warnings and told numbers as the plain reader has them.
pub fn retime(
    kind: u32,
    timescale: u32,
    map: &[u64],
    text: &[u8],
    out: &mut [u8],
    warnings: &mut [u64],
    told: &mut [u64],
) -> u32
    ensures { Retimed kind timescale map.now text.now out.old out.new warnings.old warnings.new told.old told.new result }
{
    let opened = session::open(kind, timescale, map);
    if opened.number != 0 {
        return opened.number;
    }
    if let Err(short) = lengths_fault(text.len(), out.len(), warnings.len(), told.len()) {
        return u32::from(short);
    }
    let ran = run_text(opened.session, map, text, out, warnings);
    tell(ran, text.len(), told);
    ran.number
}
