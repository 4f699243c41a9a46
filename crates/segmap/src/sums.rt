// The durations of the samples added up in decode order, in one pass, whatever the order of the ranges: the sum is kept at every 1,024th sample, and
// where a range steps back it goes on from the last of these before it.
ghost use Rattle.std.specs.Prelude.{◌≡◌, ◌≤◌, ◌<◌, length};
ghost use Rattle.spec_base.specs.base.Limits.{most_frames, most_ticks};
ghost use Rattle.spec_sheet.specs.sheet_frames.Frames.{ticks_from};
ghost use Rattle.segmap.specs.Milestones.{Noted, Carried};

use order::DecodeIdx;

// How far a sum has come: `ticks` of all samples before `decode`.
#[derive(Clone, Copy)]
pub struct Reached {
    pub decode: DecodeIdx,
    pub ticks: u64,
}

// A sum that was asked for, and how far the one that writes milestones has come.
#[derive(Clone, Copy)]
pub struct Sum {
    pub ticks: u64,
    pub far: Reached,
}

// Nothing is added up yet: the first milestone is 0.
pub fn at_first(s: &[u8], milestones: &mut [u64]) -> Reached
    requires { length milestones.old ≡ 1025 }
    ensures { Carried s.now result.decode.0 result.ticks milestones.new }
{
    milestones[0] = 0;
    Reached {
        decode: DecodeIdx(0),
        ticks: 0,
    }
}

// The sum of all samples before `to`, continued from one that has come no further.
fn add_up(s: &[u8], from: Reached, to: DecodeIdx) -> Reached
    requires { (from.ticks ≡ ticks_from s.now 0 from.decode.0) × (from.decode.0 ≤ to.0) × (ticks_from s.now 0 to.0 ≤ most_ticks) }
    ensures { (result.decode.0 ≡ to.0) × (result.ticks ≡ ticks_from s.now 0 to.0) }
{
    let long = sheet_frames::long(s);
    let mut ticks = from.ticks;
    for i in from.decode.0..to.0 {
        ticks += sheet_frames::duration_by(s, long, DecodeIdx(i));
    }
    Reached { decode: to, ticks }
}

// The sum goes on to the next milestone, or to `to` where that is nearer; a milestone that it comes to is written.
fn step(s: &[u8], from: Reached, to: DecodeIdx, milestones: &mut [u64]) -> Reached
    requires milestones_len { (length milestones.old ≡ 1025) × (from.ticks ≡ ticks_from s.now 0 from.decode.0) }
    requires decode_lt_to { (from.decode.0 < to.0) × (to.0 ≤ most_frames) × (ticks_from s.now 0 to.0 ≤ most_ticks) }
    ensures decode_lt_decode { (from.decode.0 < result.decode.0) × (result.decode.0 ≤ to.0) × (result.ticks ≡ ticks_from s.now 0 result.decode.0) }
    ensures noted { Noted s.now from.decode.0 result.decode.0 milestones.old milestones.new }
{
    let k = from.decode.0 / 1024 + 1;
    let stop = (1024 * k).min(to.0);
    let reached = add_up(s, from, DecodeIdx(stop));
    if stop == 1024 * k {
        milestones[k as usize] = reached.ticks;
    }
    reached
}

// The sum of all samples before `to`, continued from one that has come no further; each milestone on the way is written.
fn go_on(s: &[u8], from: Reached, to: DecodeIdx, milestones: &mut [u64]) -> Reached
    requires milestones_len { (length milestones.old ≡ 1025) × (from.ticks ≡ ticks_from s.now 0 from.decode.0) }
    requires decode_le_to { (from.decode.0 ≤ to.0) × (to.0 ≤ most_frames) × (ticks_from s.now 0 to.0 ≤ most_ticks) }
    ensures decode_value { (result.decode.0 ≡ to.0) × (result.ticks ≡ ticks_from s.now 0 to.0) }
    ensures noted { Noted s.now from.decode.0 to.0 milestones.old milestones.new }
{
    let mut reached = from;
    while reached.decode.0 < to.0 {
        reached = step(s, reached, to, milestones);
    }
    reached
}

// Where a sum of all samples before `to` can go on from: the place that the sum has come to, or where that is past `to`, the last milestone before.
fn nearest(s: &[u8], far: Reached, to: DecodeIdx, milestones: &[u64]) -> Reached
    requires carried { Carried s.now far.decode.0 far.ticks milestones.now }
    requires to_le_most_frames { to.0 ≤ most_frames }
    ensures { (result.decode.0 ≤ to.0) × (result.ticks ≡ ticks_from s.now 0 result.decode.0) × (far.decode.0 ≤ to.0 → result.decode.0 ≤ far.decode.0) }
{
    if to.0 < far.decode.0 {
        let k = to.0 / 1024;
        Reached {
            decode: DecodeIdx(1024 * k),
            ticks: milestones[k as usize],
        }
    } else {
        far
    }
}

// The sum of all samples before `to`, and how far the sum has come then.
pub fn reach(s: &[u8], far: Reached, to: DecodeIdx, milestones: &mut [u64]) -> Sum
    requires carried { Carried s.now far.decode.0 far.ticks milestones.old }
    requires to_le_most_frames { (to.0 ≤ most_frames) × (ticks_from s.now 0 to.0 ≤ most_ticks) }
    ensures { (result.ticks ≡ ticks_from s.now 0 to.0) × (result.ticks ≤ most_ticks) × Carried s.now result.far.decode.0 result.far.ticks milestones.new }
{
    let from = nearest(s, far, to, milestones);
    let reached = go_on(s, from, to, milestones);
    let ticks = reached.ticks;
    if to.0 < far.decode.0 {
        Sum { ticks, far }
    } else {
        Sum {
            ticks,
            far: reached,
        }
    }
}
