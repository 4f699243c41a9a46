// A map of records as flat numbers, which a session takes.
ghost use Rattle.std.specs.Prelude.{◌≡◌, ◌+◌, ◌≤◌, length};
ghost use Rattle.refusals.specs.Numbers.{told};
ghost use Rattle.spec_base.specs.base.Put.{put_at, placed};
ghost use Rattle.spec_map.specs.segment.Segment.{numbers_of, flat_of};
ghost use Rattle.spec_records.specs.map_records.Records.{flat_number};

use refusals::Refusal;
use segment::Segment;

// Writes the six numbers of a segment from the place `at` on.
fn numbers_at(flat: &mut [u64], at: usize, s: Segment)
    requires { at + 6 ≤ length flat.old }
    ensures { flat.new ≡ put_at at (numbers_of s) flat.old }
{
    flat[at..at + 6].copy_from_slice(&segment::numbers_of(s));
}

// Writes a map's numbers to the start of `flat`, six to a record; or refuses with 16 and writes nothing, where they do not fit.
pub fn flatten(map: &[Segment], flat: &mut [u64]) -> Result<(), Refusal>
    ensures { (told result ≡ flat_number map.now (length flat.old)) × (flat.new ≡ placed (flat_of map.now) flat.old) }
{
    if flat.len() < 6 * map.len() {
        return Err(Refusal::BadArgument);
    }
    for (i, s) in map.iter().enumerate() {
        numbers_at(flat, 6 * i, *s);
    }
    Ok(())
}
