// Times inside the lines of a WebVTT cue.
ghost use Rattle.std.specs.Prelude.{◌≡◌};
ghost use Rattle.spec_cue.specs.block_timing.Style.{stamp_head, stamp_in, stamps_in};

// Whether `<` and directly behind it a digit stand at the head.
fn stamp_head(s: &[u8]) -> bool
    ensures { result ≡ stamp_head s.now }
{
    matches!(s, [b'<', b'0'..=b'9', ..])
}

// Whether they stand anywhere.
// Kept: (4) `has_tag` of ass_write is alike in shape alone: a search for another thing.
fn stamp_in(s: &[u8]) -> bool
    ensures { result ≡ stamp_in s.now }
{
    for i in 0..s.len() {
        if stamp_head(base::rest(s, i)) {
            return true;
        }
    }
    false
}

// Whether times stand in the lines below a timing line, in a kind that has them.
pub fn stamps_in(kind: u32, after: &[u8]) -> bool
    ensures { result ≡ stamps_in kind after.now }
{
    kind == 2 && stamp_in(after)
}
