// The number of a timing line, which only warnings tell.
ghost use Rattle.std.specs.Prelude.{◌≡◌, ◌≤◌, eqb, length, count_by};
ghost use Rattle.spec_text.specs.text.Line.{lines_of, line_count};
ghost use Rattle.spec_cue.specs.block_cue.BlockThrough.{number_in};

// How many LFs a block has.
fn line_feeds(block: &[u8]) -> usize
    ensures { result ≡ count_by (λ b. eqb b 10) block.now }
{
    let mut n = 0;
    for b in block {
        n += usize::from(*b == b'\n');
    }
    n
}

// How many lines a block has. The last may have no LF.
fn lines_in(block: &[u8]) -> usize
    ensures { result ≡ line_count (lines_of block.now) }
{
    match block {
        [] => 0,
        [.., b'\n'] => line_feeds(block),
        _ => line_feeds(block) + 1,
    }
}

// The number, from 1, of the line behind the first k of a block that ends with the last-th line of the text.
pub fn number_in(last: u32, k: usize, block: &[u8]) -> u64
    requires { k ≤ length block.now }
    ensures { result ≡ number_in last k block.now }
{
    ((last as usize) + 1).saturating_sub(lines_in(block)) as u64 + k as u64
}
