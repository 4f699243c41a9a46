// The list of segments.
ghost use Rattle.std.specs.Prelude.{◌≡◌, cond, [], ◌∷◌, ◌+◌, ◌*◌, ◌≤◌, ltb, length};
ghost use Rattle.spec_base.specs.base.Limits.{most_segments};
ghost use Rattle.spec_base.specs.base.Put.{put_at};
ghost use Rattle.spec_json.specs.json.Member.{elements_of};
ghost use Rattle.spec_map_json.specs.map_json_write.Reads.{segments_said, list_said};
ghost use Rattle.map_json_segments.specs.Listed.{ListRead, list_said_in};

use crate::number::{Six, segment_in};

// Writes six numbers from the place `at` on.
fn six_at(map: &mut [u64], at: usize, x: Six)
    requires { at + 6 ≤ length map.old }
    ensures { map.new ≡ put_at at (x.first ∷ x.last ∷ x.source ∷ x.frames ∷ x.output ∷ x.duration ∷ []) map.old }
{
    map[at..at + 6].copy_from_slice(&[x.first, x.last, x.source, x.frames, x.output, x.duration]);
}

// Writes the numbers of the segment `n`, where there is room for it.
fn segment_at(map: &mut [u64], n: usize, x: Six)
    requires { length map.old ≡ 6 * most_segments }
    ensures { map.new ≡ cond (ltb n 1024) (put_at (6 * n) (x.first ∷ x.last ∷ x.source ∷ x.frames ∷ x.output ∷ x.duration ∷ []) map.old) map.old }
{
    if n < 1024 {
        six_at(map, 6 * n, x);
    }
}

// How many segments the array `s` has, where it is one of segments. Their numbers go to `map`, six to each, as many as there is room for.
fn segments_into(s: &[u8], map: &mut [u64]) -> Option<usize>
    requires { length map.old ≡ 6 * most_segments }
    ensures { ListRead (segments_said (elements_of 9 s.now)) (elements_of 9 s.now) result map.old map.new }
{
    let mut t = json_values::row_in(b'[', s);
    let mut n = 0;
    while let Some(x) = segment_in(t) {
        let six = x.six?;
        segment_at(map, n, six);
        n += 1;
        t = json_values::next_row(t, x.width);
    }
    Some(n)
}

// The same of a value that may be no array.
fn list_at(v: &[u8], map: &mut [u64]) -> Option<usize>
    requires { length map.old ≡ 6 * most_segments }
    ensures { ListRead (list_said v.now) (elements_of 9 v.now) result map.old map.new }
{
    if base::get_or(v, 0, 0) != b'[' {
        return None;
    }
    segments_into(v, map)
}

// The same where 6,144 places are lent; else there is none, and nothing is written.
pub fn list_into(v: &[u8], map: &mut [u64]) -> Option<usize>
    ensures { ListRead (list_said_in (length map.old) v.now) (elements_of 9 v.now) result map.old map.new }
{
    if map.len() != 6 * base::MOST_SEGMENTS {
        return None;
    }
    list_at(v, map)
}
