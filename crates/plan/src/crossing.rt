// Ranges that overlap once they are moved.
ghost use Rattle.std.specs.Prelude.{◌≡◌, ◌*◌, take};
ghost use Rattle.refusals.specs.Numbers.{told};
ghost use Rattle.spec_trim.specs.plan.Snap.{overlaps_fault};

use refusals::Refusal;

// Whether one of the first `count` ranges starts below the end of the range before it: 8. Where there are fewer, all are tested.
pub fn overlap(ranges: &[u32], count: usize) -> Result<(), Refusal>
    ensures { told result ≡ overlaps_fault 0 (take (2 * count) ranges.now) }
{
    let (pairs, _) = ranges.as_chunks::<2>();
    let mut prev = 0;
    for [start, end] in &pairs[..count.min(pairs.len())] {
        if *start < prev {
            return Err(Refusal::Overlap);
        }
        prev = *end;
    }
    Ok(())
}
