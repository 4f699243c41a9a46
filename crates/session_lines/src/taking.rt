// One line taken.
ghost use Rattle.std.specs.Prelude.{◌≡◌, [], ◌≤◌, ◌+◌, ◌-◌, length, take, drop};
ghost use Rattle.spec_base.specs.base.Put.{placed};
ghost use Rattle.spec_text.specs.text.Line.{lines_of};
ghost use Rattle.spec_map.specs.segment.Segment.{segments_of};
ghost use Rattle.spec_caption.specs.caption_fate.Grouped.{segments_by};
ghost use Rattle.spec_cue.specs.block_timing.Style.{style_of};
ghost use Rattle.spec_machine.specs.session_counts.Machine.{bom, has_bom, take_line};
ghost use Rattle.spec_machine.specs.kinds.Takes.{line_takes, block_takes, head_takes, takes, machine_of};
ghost use Rattle.spec_session.specs.session_lines.LinesThrough.{taken_in, state_of, bom_size, take_in, LineTells};
ghost use Rattle.spec_session.specs.session_lines.Done.{Ample};

use crate::closing::close_block;
use crate::telling::{behind_bom, blank, count, lent_bad, quiet, still};
use ass_columns::Columns;
use caption_fate::Config;
use session_counts::Counts;
use spec_session::session_lines::Taken;

// What stands before a line: the text's kind and timescale, the map with the bounds of its groups or none, how many lines came, the counts and the ASS columns.
#[derive(Clone, Copy)]
struct Before<'a> {
    config: Config,
    map: &'a [u64],
    groups: &'a [u64],
    n: u32,
    counts: Counts,
    columns: Columns,
}

// An ASS line without BOM.
fn ass_line(at: Before, line: &[u8], out: &mut [u8], warnings: &mut [u64]) -> Taken
    requires { Ample at.counts (length line.now) (length out.old) (length warnings.old) }
    ensures { LineTells (taken_in at.entry.config (segments_by at.entry.groups.now at.entry.map.now) at.entry.columns 0 (line_takes (record { columns = at.entry.columns; block = [] }) at.entry.n line.now)) at.entry.counts result out.old out.new warnings.old warnings.new }
{
    if !utf8::is_utf8(line) {
        return quiet(20, false, at.counts, at.columns);
    }
    let said = ass_line::line(
        at.config, at.map, at.groups, at.columns, at.n, line, out, warnings,
    );
    let told = said.told;
    if told.number != 0 {
        return quiet(told.number, false, at.counts, at.columns);
    }
    Taken {
        number: 0,
        skip: 0,
        added: false,
        counts: count(at.counts, told.counted),
        columns: said.columns,
        written: told.written,
        warned: told.warned,
    }
}

// A line of a text of blocks without BOM.
fn block_line(at: Before, block: &[u8], line: &[u8], out: &mut [u8], warnings: &mut [u64]) -> Taken
    requires { Ample at.counts (length block.now + length line.now) (length out.old) (length warnings.old) }
    ensures { LineTells (taken_in at.entry.config (segments_by at.entry.groups.now at.entry.map.now) at.entry.columns 0 (block_takes (style_of at.entry.config.kind) (record { columns = at.entry.columns; block = lines_of block.now }) at.entry.n line.now)) at.entry.counts result out.old out.new warnings.old warnings.new }
{
    if !utf8::is_utf8(line) {
        return quiet(20, false, at.counts, at.columns);
    }
    if block_timing::is_blank_in(at.config.kind, line) {
        let end = close_block(
            at.config, at.map, at.groups, at.n, at.counts, block, out, warnings,
        );
        if end.number != 0 {
            return quiet(end.number, false, at.counts, at.columns);
        }
        let written = base::put_at(out, end.written, line);
        return blank(end, at.columns, written);
    }
    if base::MOST_BLOCK < block.len() + line.len() {
        return quiet(21, false, at.counts, at.columns);
    }
    quiet(0, true, at.counts, at.columns)
}

// The first line of a WebVTT text, without BOM.
fn head_line(at: Before, line: &[u8], out: &mut [u8], warnings: &mut [u64]) -> Taken
    requires { Ample at.counts (length line.now) (length out.old) (length warnings.old) }
    ensures { LineTells (taken_in at.entry.config (segments_by at.entry.groups.now at.entry.map.now) at.entry.columns 0 (head_takes (record { columns = at.entry.columns; block = [] }) line.now)) at.entry.counts result out.old out.new warnings.old warnings.new }
{
    if !utf8::is_utf8(line) {
        return quiet(20, false, at.counts, at.columns);
    }
    if !block_timing::is_header(line) {
        return quiet(24, false, at.counts, at.columns);
    }
    let written = base::put_at(out, 0, line);
    blank(still(0, at.counts), at.columns, written)
}

// A line of any kind: held from a on; the open block is held up to s.
fn any_line(
    at: Before,
    held: &[u8],
    s: usize,
    a: usize,
    out: &mut [u8],
    warnings: &mut [u64],
) -> Taken
    requires { Ample at.counts (s + (length held.now - a)) (length out.old) (length warnings.old) × (s ≤ a) × (a ≤ length held.now) }
    ensures { LineTells (taken_in at.entry.config (segments_by at.entry.groups.now at.entry.map.now) at.entry.columns 0 (takes at.entry.config.kind (state_of at.entry.config.kind at.entry.columns (take s held.now)) at.entry.n (drop a held.now))) at.entry.counts result out.old out.new warnings.old warnings.new }
{
    if at.config.kind == 0 {
        return ass_line(at, &held[a..], out, warnings);
    }
    if block_timing::header_due(at.config.kind, at.n, &held[..s]) {
        return head_line(at, &held[a..], out, warnings);
    }
    block_line(at, &held[..s], &held[a..], out, warnings)
}

// Whether a line begins with a BOM.
fn has_bom(line: &[u8]) -> bool
    ensures { result ≡ has_bom line.now }
{
    pattern::starts_with(line, b"\xEF\xBB\xBF")
}

// The bytes of the BOM that begins the line: 3 or 0.
#[tactic(auto, using(spec_session::proofs::session_lines::BomLaws::bom_zero, spec_session::proofs::session_lines::BomLaws::bom_three, spec_session::proofs::session_lines::BomLaws::bom_none, spec_session::proofs::session_lines::BomLaws::bom_fits))]
fn bom_size(n: u32, line: &[u8]) -> usize
    ensures value { result ≡ bom_size n line.now }
    ensures upper_bound { (result ≤ length line.now) × (result ≤ 3) }
{
    if n == 0 && has_bom(line) { 3 } else { 0 }
}

// Writes the BOM, where there is room for it.
pub fn put_bom(out: &mut [u8])
    ensures { out.new ≡ placed bom out.old }
{
    base::put(out, b"\xEF\xBB\xBF");
}

// A line with the BOM that may begin it, with the room for it.
fn take_held(at: Before, held: &[u8], s: usize, out: &mut [u8], warnings: &mut [u64]) -> Taken
    requires { Ample at.counts (length held.now) (length out.old) (length warnings.old) × (s ≤ length held.now) }
    ensures { LineTells (taken_in at.entry.config (segments_by at.entry.groups.now at.entry.map.now) at.entry.columns (bom_size at.entry.n (drop s held.now)) (take_line (machine_of at.entry.config.kind) (state_of at.entry.config.kind at.entry.columns (take s held.now)) at.entry.n (drop s held.now))) at.entry.counts result out.old out.new warnings.old warnings.new }
{
    let k = bom_size(at.n, &held[s..]);
    let a = s + k;
    let told = any_line(at, held, s, a, &mut out[k..], warnings);
    if told.number != 0 || k == 0 {
        return told;
    }
    put_bom(out);
    behind_bom(told)
}

// A line with the BOM that may begin it: held from s on, behind the open block; n lines came before it. The map has the bounds of its groups, or none.
#[tactic(auto, using(spec_session::proofs::session_lines::LentLaws::line_past, spec_session::proofs::session_lines::LentLaws::line_16))]
pub fn take_line_by(
    config: Config,
    map: &[u64],
    groups: &[u64],
    n: u32,
    counts: Counts,
    columns: Columns,
    held: &[u8],
    s: usize,
    out: &mut [u8],
    warnings: &mut [u64],
) -> Taken
    ensures { LineTells (take_in config (segments_by groups.now map.now) n counts columns held.now s (length out.old) (length warnings.old)) counts result out.old out.new warnings.old warnings.new }
{
    if held.len() < s || lent_bad(counts, held.len(), out.len(), warnings.len()) {
        return quiet(16, false, counts, columns);
    }
    let at = Before {
        config,
        map,
        groups,
        n,
        counts,
        columns,
    };
    take_held(at, held, s, out, warnings)
}

// The same of a map without bounds.
pub fn take_line(
    config: Config,
    map: &[u64],
    n: u32,
    counts: Counts,
    columns: Columns,
    held: &[u8],
    s: usize,
    out: &mut [u8],
    warnings: &mut [u64],
) -> Taken
    ensures { LineTells (take_in config (segments_of map.now) n counts columns held.now s (length out.old) (length warnings.old)) counts result out.old out.new warnings.old warnings.new }
{
    take_line_by(
        config,
        map,
        base::front(map, 0),
        n,
        counts,
        columns,
        held,
        s,
        out,
        warnings,
    )
}
