// The refusals of snapped ranges, range by range: turned over (9), past the end (10).
ghost use Rattle.std.specs.Prelude.{◌≡◌, ◌*◌, take};
ghost use Rattle.refusals.specs.Numbers.{told};
ghost use Rattle.spec_map.specs.segmap.Build.{range_fault, ranges_fault};

use order::DisplayIdx;
use refusals::Refusal;

// Whether a range is turned over, or takes samples past the last.
pub fn range_fault(s: &[u8], n: u32, start: DisplayIdx, end: DisplayIdx) -> Result<(), Refusal>
    ensures { told result ≡ range_fault s.now n start.0 end.0 }
{
    if end.0 < start.0 {
        return Err(Refusal::TurnedOver);
    }
    let count = u64::from(order::frame_count(start, end));
    let decode = sheet_frames::decode_at(s, start);
    if u64::from(n) < u64::from(decode.0) + count {
        Err(Refusal::PastTheEnd)
    } else {
        Ok(())
    }
}

// The first fault of the first `count` ranges. Where there are fewer, all are tested.
pub fn ranges_fault(s: &[u8], n: u32, ranges: &[u32], count: usize) -> Result<(), Refusal>
    ensures { told result ≡ ranges_fault s.now n (take (2 * count) ranges.now) }
{
    let (pairs, _) = ranges.as_chunks::<2>();
    for [start, end] in &pairs[..count.min(pairs.len())] {
        range_fault(s, n, DisplayIdx(*start), DisplayIdx(*end))?;
    }
    Ok(())
}
