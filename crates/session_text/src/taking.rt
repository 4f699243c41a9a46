// A feed of the new bytes of a text, behind those that are held.
ghost use Rattle.std.specs.Prelude.{◌≡◌, true, false, ◌≤◌, length};
ghost use Rattle.spec_map.specs.segment.Segment.{map_bad};
ghost use Rattle.spec_map.specs.segment.Groups.{groups_of};
ghost use Rattle.refusals.specs.Numbers.{number_of, told};
ghost use Rattle.spec_session.specs.session_text.Answer.{text_bad, TextAnswered};
ghost use Rattle.spec_session.specs.session_text.Lined.{head_refusal, unchanged_text, ended_text, going_text};

use crate::lining::run_lines;
use ass_columns::Columns;
use caption_fate::Config;
use refusals::Refusal;
use session_state::Head;
use spec_session::session_text::{Lined, TextFed};

// 16: by the caller's own test, or by the lengths of the text, of the output and of the places.
#[tactic(auto, unfolding(spec_session::specs::session_text::Answer::text_bad))]
fn text_bad(bad: bool, head: Head, text: usize, out: usize, places: usize) -> bool
    ensures { result ≡ text_bad bad head text out places }
{
    if bad || text < head.held_len {
        return true;
    }
    let new = text - head.held_len;
    (base::MOST_TAKEN as usize) < new
        || (base::MOST_TAKEN as usize) < (head.taken as usize) + new
        || out / 3 < text
        || places < text / 3 + 4
}

// 15, of a map whose numbers may be known to be small.
fn map_wrong(map: &[u64], small: bool) -> bool
    requires { small ≡ true → map_bad map.now ≡ false }
    ensures { result ≡ map_bad map.now }
{
    !small && segment::map_bad(map)
}

// Why the call is refused.
fn refusal(head: Head, map: &[u64], small: bool, held: &[u8], bad: bool) -> Result<(), Refusal>
    requires { small ≡ true → map_bad map.now ≡ false }
    ensures { told result ≡ head_refusal head held.now map.now bad }
{
    if session_state::foreign_head(head, held) {
        return Err(Refusal::ForeignSession);
    }
    if head.ended {
        return Err(Refusal::Ended);
    }
    if map_wrong(map, small) {
        return Err(Refusal::BadMap);
    }
    if bad {
        return Err(Refusal::BadArgument);
    }
    Ok(())
}

// Refused: the session as it came.
fn unchanged(refusal: Refusal, head: Head) -> TextFed
    ensures { result ≡ unchanged_text (number_of refusal) head }
{
    TextFed {
        number: u32::from(refusal),
        written: 0,
        warned: 0,
        begin: 0,
        head,
    }
}

// The text ended by a fault: nothing of its n bytes is held.
fn over(config: Config, taken: u32, n: usize, end: Lined) -> TextFed
    ensures { result ≡ ended_text config taken n end }
{
    let head = Head {
        config,
        ended: true,
        outcome: end.number,
        taken,
        lines: 0,
        counts: end.counts,
        columns: Columns {
            events: false,
            columns: 0,
            start: 0,
            end: 0,
        },
        held_len: 0,
    };
    TextFed {
        number: end.number,
        written: end.written,
        warned: end.warned,
        begin: n,
        head,
    }
}

// The text goes on: of its n bytes those from `begin` on are held.
fn going_on(config: Config, outcome: u32, taken: u32, n: usize, end: Lined) -> TextFed
    requires { end.begin ≤ n }
    ensures { result ≡ going_text config outcome taken n end }
{
    let head = Head {
        config,
        ended: false,
        outcome,
        taken,
        lines: end.lines,
        counts: end.counts,
        columns: end.columns,
        held_len: n - end.begin,
    };
    TextFed {
        number: 0,
        written: end.written,
        warned: end.warned,
        begin: end.begin,
        head,
    }
}

// A feed of the bytes behind the held ones, through a map with the bounds of its groups.
fn take_bounded(
    head: Head,
    map: &[u64],
    groups: &[u64],
    small: bool,
    text: &[u8],
    bad: bool,
    out: &mut [u8],
    warnings: &mut [u64],
) -> TextFed
    requires { (small ≡ true → map_bad map.now ≡ false) × (map_bad map.now ≡ false → groups.now ≡ groups_of map.now) }
    ensures { TextAnswered head map.now text.now bad result out.old out.new warnings.old warnings.new }
{
    let short = text_bad(bad, head, text.len(), out.len(), warnings.len());
    let held = base::front(text, head.held_len);
    if let Err(refused) = refusal(head, map, small, held, short) {
        return unchanged(refused, head);
    }
    let start = session_state::block_end(held);
    let end = run_lines(head, map, groups, start, text, out, warnings);
    let taken = head.taken + ((text.len() - head.held_len) as u32);
    if end.number != 0 {
        return over(head.config, taken, text.len(), end);
    }
    going_on(head.config, head.outcome, taken, text.len(), end)
}

// A feed of the bytes behind the first `held_len` ones, which are held. `bad`: the caller refuses the call by 16.
pub fn take_text(
    head: Head,
    map: &[u64],
    text: &[u8],
    bad: bool,
    out: &mut [u8],
    warnings: &mut [u64],
) -> TextFed
    ensures { TextAnswered head map.now text.now bad result out.old out.new warnings.old warnings.new }
{
    // Kept: (1) no heap: the memory is fixed.
    let mut groups = [0u64; 128];
    let seen = segment::survey(map, &mut groups);
    take_bounded(
        head,
        map,
        base::front(&groups, seen.count),
        seen.small,
        text,
        bad,
        out,
        warnings,
    )
}
