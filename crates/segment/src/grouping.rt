// A map in groups of 16 segments, and whether its numbers are small, in one pass.
ghost use Rattle.std.specs.Prelude.{◌≡◌, ◌^◌, ◌≤◌, length, nat_lt};
ghost use Rattle.spec_map.specs.segment.Segment.{segments_of};
ghost use Rattle.spec_map.specs.segment.Groups.{low_of, high_of, any_large, Surveys};

use spec_map::segment::Surveyed;

// The places that the groups of 1,024 segments take.
const GROUP_PLACES: usize = 128;

// What 16 segments give: the bounds, and 0 where all numbers are small.
#[derive(Clone, Copy)]
struct Group {
    low: u64,
    high: u64,
    excess: u64,
}

// 0 where the six numbers of a segment are small. Quotients instead of tests: the loop has no branch.
fn largeness(numbers: &[u64; 6]) -> u64
    ensures result_value { nat_lt 0 result ≡ any_large (segments_of numbers.now) }
    ensures upper_bound { result ≤ 2 ^ 34 }
{
    let [first, last, source, frames, output, duration] = *numbers;
    let past = first / 4294967296 + last / 4294967296 + frames / 4294967296;
    past + source / 4503599627370496 + output / 4503599627370496 + duration / 4503599627370496
}

// A row of at most 16 segments.
fn group_of(row: &[u64]) -> Group
    requires { length row.now ≤ 96 }
    ensures low_value { result.low ≡ low_of (segments_of row.now) }
    ensures high_value { result.high ≡ high_of (segments_of row.now) }
    ensures excess_value { nat_lt 0 result.excess ≡ any_large (segments_of row.now) }
    ensures excess_bound { result.excess ≤ 2 ^ 41 }
{
    let mut low = u64::MAX;
    let mut high: u64 = 0;
    let mut excess = 0;
    let (segments, _) = row.as_chunks::<6>();
    for numbers in segments {
        low = low.min(numbers[2]);
        high = high.max(numbers[2].wrapping_add(numbers[5]));
        excess += largeness(numbers);
    }
    Group { low, high, excess }
}

// Writes the groups of a map, two numbers each, and tells how many numbers that are and whether all of the map's are small. Nothing where the map is no row of at most 1,024
// segments or fewer than 128 places are lent.
pub fn survey(map: &[u64], groups: &mut [u64]) -> Surveyed
    ensures { Surveys map.now groups.old groups.new result }
{
    if map.len() % 6 != 0 || 6 * base::MOST_SEGMENTS < map.len() || groups.len() < GROUP_PLACES {
        return Surveyed {
            count: 0,
            small: false,
        };
    }
    let mut count = 0;
    let mut excess = 0;
    for row in map.chunks(96) {
        let group = group_of(row);
        count = base::put_at(groups, count, &[group.low, group.high]);
        excess += group.excess;
    }
    Surveyed {
        count,
        small: excess == 0,
    }
}
