// The fields of a caption line, parted by commas; the last keeps its commas.
ghost use Rattle.std.specs.Prelude.{◌≡◌, cond, eqb, leb, length, count_by};
ghost use Rattle.spec_text.specs.pattern.Find.{first};
ghost use Rattle.spec_ass.specs.ass_columns.Columns.{fields, field_at};
ghost use Rattle.spec_text.specs.pattern.Piece.{comma};

// How many bytes the first of at most `left` fields has.
pub fn field_length(t: &[u8], left: usize) -> usize
    ensures { result ≡ cond (leb left 1) (length t.now) (first comma t.now) }
{
    if left <= 1 {
        t.len()
    } else {
        pattern::find(t, b",")
    }
}

// Whether `s` has as many fields as there are columns, by a search for each comma.
fn enough_by_one(s: &[u8], columns: usize) -> bool
    ensures { result ≡ leb columns (length (fields columns s.now)) }
{
    let mut t = s;
    for _ in 1..columns {
        let i = pattern::find(t, b",");
        if t.len() <= i {
            return false;
        }
        t = base::rest(t, i + 1);
    }
    true
}

// How many commas stand in 16 bytes.
fn commas_in(chunk: &[u8; 16]) -> u8
    ensures { result ≡ count_by (λ b. eqb b 44) chunk.now }
{
    let mut n = 0;
    for b in chunk {
        n += u8::from(*b == b',');
    }
    n
}

// Whether `s` has as many fields as there are columns: the commas of 16 bytes are counted at once.
pub fn enough(s: &[u8], columns: usize) -> bool
    ensures { result ≡ leb columns (length (fields columns s.now)) }
{
    let mut t = s;
    let mut left = columns;
    while let Some((chunk, rest)) = t.split_first_chunk::<16>() {
        if left <= 1 {
            return true;
        }
        left = left.saturating_sub(usize::from(commas_in(chunk)));
        t = rest;
    }
    enough_by_one(t, left)
}

// The field at a place from 1, of at most so many as there are columns; empty where there is none.
pub fn field(s: &[u8], columns: usize, place: usize) -> &[u8]
    ensures { result.now ≡ field_at place (fields columns s.now) }
{
    if place == 0 || columns < place {
        return base::front(s, 0);
    }
    let mut t = s;
    for _ in 1..place {
        let i = pattern::find(t, b",");
        if t.len() <= i {
            return base::front(t, 0);
        }
        t = base::rest(t, i + 1);
    }
    base::front(t, field_length(t, columns - (place - 1)))
}
