// One closed block of SRT or WebVTT: its lines as one slice, retimed into the rest of the output.
ghost use Rattle.std.specs.Prelude.{◌≡◌, ◌++◌, ◌+◌, ◌*◌, ◌-◌, ◌≤◌, suc, length};
ghost use Rattle.spec_base.specs.base.Put.{put, placed_at, place_after};
ghost use Rattle.spec_text.specs.text.Line.{lines_of, line_count};
ghost use Rattle.spec_time.specs.caption_stamp.Read.{time_in};
ghost use Rattle.spec_time.specs.caption_stamp.Write.{time_text};
ghost use Rattle.spec_caption.specs.caption_fate.Grouped.{segments_by};
ghost use Rattle.spec_caption.specs.declared.caption_fate.Decision.TheVariants.{Kept};
ghost use Rattle.spec_caption.specs.caption_fate.Decide.{decide_in};
ghost use Rattle.spec_caption.specs.caption_fate.Emit.{warn_if, places_of, render};
ghost use Rattle.spec_caption.specs.caption_fate.Told.{cue_in, Tells};
ghost use Rattle.spec_cue.specs.block_timing.Style.{stamps_in, style_of};
ghost use Rattle.spec_cue.specs.block_cue.Block.{block_frame, block_cue, timing_line_says};
ghost use Rattle.spec_cue.specs.block_cue.BlockThrough.{times_read, block_answer_in, block_in, number_in};

use crate::numbering::number_in;
use block_timing::{after_arrow, before_arrow, end_length, locate};
use caption_fate::{Config, Counted, Decision, Retimed, Told, counted_by, refused};
use spec_cue::block_cue::Times;

// What a block is put through: the segments of a map, by the groups of its numbers.
#[derive(Clone, Copy)]
struct Cut<'a> {
    config: Config,
    map: &'a [u64],
    groups: &'a [u64],
}

// The parts of a block about its two times: the lines above, what trails the end, the terminator, the lines below.
#[derive(Clone, Copy)]
struct Parts<'a> {
    before: &'a [u8],
    trailing: &'a [u8],
    end: &'a [u8],
    after: &'a [u8],
}

// Where the timing line stands: behind the first `above` lines of a block that ends with the last-th line of the text.
#[derive(Clone, Copy)]
struct Site<'a> {
    last: u32,
    above: usize,
    block: &'a [u8],
}

// The new block, where the output has room for it: 51 bytes beside the old parts.
fn write_kept(kind: u32, new: Times, parts: Parts, out: &mut [u8]) -> usize
    requires { length parts.before.now + length parts.trailing.now + length parts.end.now + length parts.after.now + 51 ≤ length out.old }
    ensures { (out.new ≡ put (render (block_frame parts.entry.before.now parts.entry.trailing.now parts.entry.end.now parts.entry.after.now) (time_text kind new.start_mark new.start) (time_text kind new.stop_mark new.stop)) out.old) × (result ≡ length (render (block_frame parts.entry.before.now parts.entry.trailing.now parts.entry.end.now parts.entry.after.now) (time_text kind new.start_mark new.start) (time_text kind new.stop_mark new.stop))) }
{
    let a = base::put_at(out, 0, parts.before);
    let b = caption_stamp::write_time_at(new.start, kind, new.start_mark, out, a);
    let c = base::put_at(out, b, b" --> ");
    let d = caption_stamp::write_time_at(new.stop, kind, new.stop_mark, out, c);
    let e = base::put_at(out, d, parts.trailing);
    let f = base::put_at(out, e, parts.end);
    base::put_at(out, f, parts.after)
}

// A warning from the place `at` on, where there is one, and the place after it.
fn warn_at(warns: bool, number: u64, at: usize, line: u64, warnings: &mut [u64]) -> usize
    ensures { (result ≡ place_after at (places_of (warn_if warns number line)) warnings.old) × (warnings.new ≡ placed_at at (places_of (warn_if warns number line)) warnings.old) }
{
    if warns {
        base::put_at(warnings, at, &[number, line])
    } else {
        at
    }
}

// Warning 4, and then warning 5. The number of the line is worked out only where there is a warning.
fn warn(lost: bool, stamped: bool, site: Site, warnings: &mut [u64]) -> usize
    requires { (4 ≤ length warnings.old) × (site.above ≤ length site.block.now) }
    ensures { (result ≡ length (places_of (warn_if lost 4 (number_in site.entry.last site.entry.above site.entry.block.now) ++ warn_if stamped 5 (number_in site.entry.last site.entry.above site.entry.block.now)))) × (warnings.new ≡ put (places_of (warn_if lost 4 (number_in site.entry.last site.entry.above site.entry.block.now) ++ warn_if stamped 5 (number_in site.entry.last site.entry.above site.entry.block.now))) warnings.old) }
{
    if !lost && !stamped {
        return 0;
    }
    let line = number_in(site.last, site.above, site.block);
    let at = warn_at(lost, 4, 0, line, warnings);
    warn_at(stamped, 5, at, line, warnings)
}

// A caption that is kept.
fn keep(
    kind: u32,
    new: Retimed,
    old: Times,
    parts: Parts,
    site: Site,
    out: &mut [u8],
    warnings: &mut [u64],
) -> Told
    requires { (length parts.before.now + length parts.trailing.now + length parts.end.now + length parts.after.now + 51 ≤ length out.old) × (4 ≤ length warnings.old) × (site.above ≤ length site.block.now) }
    ensures { Tells (cue_in kind (block_cue (number_in site.entry.last site.entry.above site.entry.block.now) old.start old.start_mark old.stop old.stop_mark (stamps_in kind parts.entry.after.now) (block_frame parts.entry.before.now parts.entry.trailing.now parts.entry.end.now parts.entry.after.now)) (Kept new)) result out.old out.new warnings.old warnings.new }
{
    let times = Times {
        start: new.start,
        stop: new.stop,
        ..old
    };
    let lost = new.lost;
    let stamped = block_timing::stamps_in(kind, parts.after);
    let counted = counted_by(new);
    let written = write_kept(kind, times, parts, out);
    let warned = warn(lost, stamped, site, warnings);
    Told {
        number: 0,
        counted,
        written,
        warned,
    }
}

// A caption whose times are read.
fn settle(
    cut: Cut,
    old: Times,
    parts: Parts,
    site: Site,
    out: &mut [u8],
    warnings: &mut [u64],
) -> Told
    requires { (length parts.before.now + length parts.trailing.now + length parts.end.now + length parts.after.now + 51 ≤ length out.old) × (4 ≤ length warnings.old) × (site.above ≤ length site.block.now) }
    ensures { Tells (cue_in cut.entry.config.kind (block_cue (number_in site.entry.last site.entry.above site.entry.block.now) old.start old.start_mark old.stop old.stop_mark (stamps_in cut.entry.config.kind parts.entry.after.now) (block_frame parts.entry.before.now parts.entry.trailing.now parts.entry.end.now parts.entry.after.now)) (decide_in cut.entry.config (segments_by cut.entry.groups.now cut.entry.map.now) old.start old.stop)) result out.old out.new warnings.old warnings.new }
{
    let config = cut.config;
    match caption_fate::decide(cut.map, cut.groups, config, old.start, old.stop) {
        Decision::Strange => refused(15),
        Decision::Dropped => Told {
            number: 0,
            counted: Counted::Dropped,
            written: 0,
            warned: 0,
        },
        Decision::Kept(new) => keep(config.kind, new, old, parts, site, out, warnings),
    }
}

// The start's text and the end's, read.
fn read_times(kind: u32, start: &[u8], stop: &[u8]) -> Option<Times>
    ensures { result ≡ times_read (time_in kind start.now) (time_in kind stop.now) }
{
    let from = caption_stamp::read_time(start, kind)?;
    let to = caption_stamp::read_time(stop, kind)?;
    Some(Times {
        start: from.units,
        start_mark: from.mark,
        stop: to.units,
        stop_mark: to.mark,
    })
}

// A block with a timing line.
fn timed(
    cut: Cut,
    before: &[u8],
    line: &[u8],
    after: &[u8],
    site: Site,
    out: &mut [u8],
    warnings: &mut [u64],
) -> Told
    requires { (3 * (length before.now + length line.now + length after.now) ≤ length out.old) × (4 ≤ length warnings.old) × (site.above ≤ length site.block.now) }
    ensures { Tells (block_answer_in cut.entry.config (segments_by cut.entry.groups.now cut.entry.map.now) (timing_line_says (style_of cut.entry.config.kind) (number_in site.entry.last site.entry.above site.entry.block.now) before.now line.now after.now)) result out.old out.new warnings.old warnings.new }
{
    let kind = cut.config.kind;
    let text = text::text_of(line);
    let behind = after_arrow(text);
    let n = end_length(kind, behind);
    let parts = Parts {
        before,
        trailing: base::rest(behind, n),
        end: text::terminator_of(line),
        after,
    };
    match read_times(kind, before_arrow(text), base::front(behind, n)) {
        None => refused(22),
        Some(old) => settle(cut, old, parts, site, out, warnings),
    }
}

// What becomes of a block: `text` is its non-blank lines, of which the last is the last-th of the whole text.
pub fn block(
    config: Config,
    map: &[u64],
    groups: &[u64],
    last: u32,
    text: &[u8],
    out: &mut [u8],
    warnings: &mut [u64],
) -> Told
    ensures { Tells (block_in config (segments_by groups.now map.now) (suc last - line_count (lines_of text.now)) text.now (length out.old) (length warnings.old)) result out.old out.new warnings.old warnings.new }
{
    if out.len() / 3 < text.len() || warnings.len() < 4 {
        return refused(16);
    }
    if let Some(p) = locate(text) {
        let rest = base::rest(text, p.at);
        let before = base::front(text, p.at);
        let line = base::front(rest, p.size);
        let after = base::rest(rest, p.size);
        let cut = Cut {
            config,
            map,
            groups,
        };
        let site = Site {
            last,
            above: p.lines,
            block: text,
        };
        return timed(cut, before, line, after, site, out, warnings);
    }
    Told {
        number: 0,
        counted: Counted::Nothing,
        written: base::put(out, text),
        warned: 0,
    }
}
