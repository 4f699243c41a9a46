// The end of a block, and of a text of blocks.
ghost use Rattle.std.specs.Prelude.{[], ◌≤◌, ◌*◌, length};
ghost use Rattle.spec_text.specs.text.Line.{lines_of};
ghost use Rattle.spec_map.specs.segment.Segment.{segments_of};
ghost use Rattle.spec_caption.specs.caption_fate.Grouped.{segments_by};
ghost use Rattle.spec_cue.specs.block_timing.Style.{style_of};
ghost use Rattle.spec_machine.specs.kinds.Takes.{blank_state, closes};
ghost use Rattle.spec_session.specs.session_lines.LinesThrough.{answer_in, end_in, EndTells};
ghost use Rattle.spec_session.specs.session_lines.Done.{Ample};

use crate::telling::{count, lent_bad, still};
use caption_fate::Config;
use session_counts::Counts;
use spec_session::session_lines::Ended;

// The end of a block, with the room for it.
pub fn close_block(
    config: Config,
    map: &[u64],
    groups: &[u64],
    n: u32,
    counts: Counts,
    block: &[u8],
    out: &mut [u8],
    warnings: &mut [u64],
) -> Ended
    requires { Ample counts (length block.now) (length out.old) (length warnings.old) }
    ensures end_tells { EndTells (answer_in config (segments_by groups.now map.now) (closes (style_of config.kind) blank_state n (lines_of block.now) [])) counts result out.old out.new warnings.old warnings.new }
    ensures written_bound { result.written ≤ 3 * length block.now }
{
    if block.is_empty() {
        return still(0, counts);
    }
    let told = block_cue::block(config, map, groups, n, block, out, warnings);
    if told.number != 0 {
        return still(told.number, counts);
    }
    Ended {
        number: 0,
        counts: count(counts, told.counted),
        written: told.written,
        warned: told.warned,
    }
}

// The end of a block: its lines end with the n-th line of the text.
pub fn end_block(
    config: Config,
    map: &[u64],
    n: u32,
    counts: Counts,
    block: &[u8],
    out: &mut [u8],
    warnings: &mut [u64],
) -> Ended
    ensures { EndTells (end_in config (segments_of map.now) n counts block.now (length out.old) (length warnings.old)) counts result out.old out.new warnings.old warnings.new }
{
    if lent_bad(counts, block.len(), out.len(), warnings.len()) {
        return still(16, counts);
    }
    if block_timing::header_due(config.kind, n, block) {
        return still(24, counts);
    }
    close_block(
        config,
        map,
        base::front(map, 0),
        n,
        counts,
        block,
        out,
        warnings,
    )
}
