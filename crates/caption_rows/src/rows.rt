// A row written.
ghost use Rattle.std.specs.Prelude.{◌≡◌, cond, ◌+◌, ◌<◌, ◌^◌};
ghost use Rattle.spec_base.specs.base.Put.{placed_at, place_after};
ghost use Rattle.spec_rows.specs.caption_rows.Walk.{six_said, rows_said};

use spec_rows::caption_rows::Said;

// Writes six numbers from the place `at` on, and answers the place after them; where they do not fit, nothing and `at`.
fn six_at(rows: &mut [u64], at: usize, said: Said) -> usize
    ensures { (result ≡ place_after at (six_said said) rows.old) × (rows.new ≡ placed_at at (six_said said) rows.old) }
{
    if rows.len().saturating_sub(at) < 6 {
        return at;
    }
    let row = [
        said.line,
        said.warned,
        said.start,
        said.stop,
        said.at as u64,
        said.size as u64,
    ];
    rows[at..at + 6].copy_from_slice(&row);
    at + 6
}

// The row of what was said, if it is a caption.
pub fn row_at(rows: &mut [u64], at: usize, said: Said) -> usize
    ensures { (result ≡ place_after at (rows_said said) rows.old) × (rows.new ≡ placed_at at (rows_said said) rows.old) }
{
    if said.caption {
        six_at(rows, at, said)
    } else {
        at
    }
}

// One more, where there is a caption.
pub fn counted(captions: usize, caption: bool) -> usize
    requires { captions + 1 < 2 ^ 64 }
    ensures { result ≡ captions + cond caption 1 0 }
{
    captions + usize::from(caption)
}
