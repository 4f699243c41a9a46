// The held bytes: in SRT and WebVTT the open block's lines, each with its LF; behind them the unfinished line, which is all that ASS holds.
ghost use Rattle.std.specs.Prelude.{◌≡◌, ◌||◌, not, cond, eqb, length};
ghost use Rattle.spec_text.specs.utf8.Utf8.{utf8};
ghost use Rattle.spec_text.specs.text.Line.{concat, lines_of, line_count};
ghost use Rattle.spec_cue.specs.block_timing.Style.{blank_in};
ghost use Rattle.spec_machine.specs.session_counts.Cut.{closed_lines};
ghost use Rattle.spec_machine.specs.kinds.Kit.{lines_bad, held_bad};

// How many bytes the finished lines have together: all up to the last LF.
pub fn block_end(held: &[u8]) -> usize
    ensures { result ≡ length (concat (closed_lines held.now)) }
{
    for i in (0..held.len()).rev() {
        if held[i] == b'\n' {
            return i + 1;
        }
    }
    0
}

// How many LFs are held.
pub fn lf_count(held: &[u8]) -> usize
    ensures { result ≡ line_count (closed_lines held.now) }
{
    let mut n = 0;
    for b in held {
        n += usize::from(*b == b'\n');
    }
    n
}

// Whether this can't be a line of an open block: a blank line would have ended the block, and a line that is not UTF-8 is a fault (20).
fn line_bad(kind: u32, line: &[u8]) -> bool
    ensures { result ≡ (blank_in kind line.now || not (utf8 line.now)) }
{
    block_timing::is_blank_in(kind, line) || !utf8::is_utf8(line)
}

// Whether one of the lines can't be a line of an open block.
fn lines_bad(kind: u32, s: &[u8]) -> bool
    ensures { result ≡ lines_bad kind (lines_of s.now) }
{
    let mut t = s;
    while !t.is_empty() {
        let k = text::line_length(t);
        if line_bad(kind, base::front(t, k)) {
            return true;
        }
        t = base::rest(t, k);
    }
    false
}

// Whether no session of this kind holds these bytes: ASS holds no finished line, a block and an unfinished line keep their limits, and every line of the block
// can be one.
#[tactic(auto, using(spec_session::proofs::session_state::HeldLaws::held_lf, spec_session::proofs::session_state::HeldLaws::held_block, spec_session::proofs::session_state::HeldLaws::held_lines))]
pub fn held_bad(kind: u32, held: &[u8]) -> bool
    ensures { result ≡ held_bad kind held.now }
{
    let e = block_end(held);
    if kind == 0 {
        base::MOST_LINE < held.len() || 0 < e
    } else {
        base::MOST_BLOCK < e
            || lines_bad(kind, base::front(held, e))
            || base::MOST_LINE < held.len().saturating_sub(e)
    }
}
