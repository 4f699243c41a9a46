// The part of the lent places that holds a map.
ghost use Rattle.std.specs.Prelude.{◌≡◌, ◌*◌, take};

// The numbers of the first `count` segments, or all where there are fewer.
pub fn first_segments(map: &[u64], count: usize) -> &[u64]
    ensures { result.now ≡ take (6 * count) map.now }
{
    if count <= map.len() / 6 {
        &map[..6 * count]
    } else {
        map
    }
}
