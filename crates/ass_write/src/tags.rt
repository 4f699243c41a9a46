// The override tags whose times are relative to a caption's start.
ghost use Rattle.std.specs.Prelude.{◌≡◌};
ghost use Rattle.std.specs.List.{list_any};
ghost use Rattle.spec_text.specs.pattern.Find.{starts};
ghost use Rattle.spec_ass.specs.ass_write.Tags.{tags, tagged};

// Whether `s` begins with one of the five tags.
fn starts_tag(s: &[u8]) -> bool
    ensures { result ≡ list_any (λ t. starts t s.now) tags }
{
    pattern::starts_with(s, b"\\move(")
        || pattern::starts_with(s, b"\\t(")
        || pattern::starts_with(s, b"\\fad(")
        || pattern::starts_with(s, b"\\fade(")
        || pattern::starts_with(s, b"\\k")
}

// Whether one of the five tags stands in `s`. The search ends at the first that is found.
// Kept: (4) `stamp_in` of block_timing is alike in shape alone: a search for another thing.
pub fn has_tag(s: &[u8]) -> bool
    ensures { result ≡ tagged s.now }
{
    for i in 0..s.len() {
        if starts_tag(base::rest(s, i)) {
            return true;
        }
    }
    false
}
