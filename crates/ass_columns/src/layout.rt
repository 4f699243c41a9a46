// The columns of a `Format:` line.
ghost use Rattle.std.specs.Prelude.{◌≡◌, cond, eqb, length};
ghost use Rattle.spec_text.specs.pattern.Find.{equals};
ghost use Rattle.spec_ass.specs.ass_columns.Columns.{start_name, end_name, names_in, columns_in};

use spec_ass::ass_columns::Columns;

// What a `Format:` line sets, and how many trimmings of a column it took to find that.
#[derive(Clone, Copy)]
pub struct Format {
    pub columns: Columns,
    pub trimmed: usize,
}

// The first place that was met: the one before, else this one where it is met.
fn first_place(earlier: usize, place: usize, met: bool) -> usize
    ensures { result ≡ cond (eqb earlier 0) (cond met place 0) earlier }
{
    if earlier == 0 && met { place } else { earlier }
}

// What a `Format:` line in Events sets, in one pass: `s` stands after that word. Each column is trimmed once, and counted where it is.
pub fn columns_of(s: &[u8]) -> Format
    ensures { (result.columns ≡ columns_in s.now) × (result.trimmed ≡ length (names_in s.now)) }
{
    let mut columns: usize = 0;
    let mut trimmed: usize = 0;
    let mut start: usize = 0;
    let mut end: usize = 0;
    for piece in s.split(|b| *b == b',') {
        let name = whitespace::trimmed(piece);
        trimmed += 1;
        columns += 1;
        start = first_place(start, columns, pattern::equals(name, b"Start"));
        end = first_place(end, columns, pattern::equals(name, b"End"));
    }
    let all = Columns {
        events: true,
        columns,
        start,
        end,
    };
    Format {
        columns: all,
        trimmed,
    }
}
