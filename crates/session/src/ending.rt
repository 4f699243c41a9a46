// A finish: the last line, then the end of the block.
ghost use Rattle.std.specs.Prelude.{◌≡◌, List, [], ℕ, ◌<◌, ◌+◌, ◌^◌, eqb, length, take};
ghost use Rattle.spec_text.specs.text.Line.{concat};
ghost use Rattle.spec_caption.specs.caption_fate.Says.{Part};
ghost use Rattle.spec_machine.specs.declared.session_counts.Counts.{Counts};
ghost use Rattle.spec_machine.specs.session_counts.Machine.{going, closed, with_bom, finish_run};
ghost use Rattle.spec_machine.specs.kinds.Takes.{State, ends, machine_of};
ghost use Rattle.spec_session.specs.session_lines.Done.{Ready, Parsed};
ghost use Rattle.spec_session.specs.session.Stand.{Shows, CloseRoom, Opening, resume_at, closing_to, bom_to, bom_alone_of};

use crate::running::{end_line, stop};
use caption_fate::Config;
use session_lines::{Ended, end_block, put_bom};
use spec_session::session::Going;

// After the end of a block.
fn closing(at: Going, end: Ended) -> Going
    requires { (at.written + end.written < 2 ^ 64) × (at.warned + end.warned < 2 ^ 64) }
    ensures { result ≡ closing_to at end }
{
    Going {
        number: end.number,
        counts: end.counts,
        written: at.written + end.written,
        warned: at.warned + end.warned,
        ..at
    }
}

// The end of the text: it ends the open block.
fn close(
    config: Config,
    map: &[u64],
    at: Going,
    held: &[u8],
    out: &mut [u8],
    warnings: &mut [u64],
) -> Going
    requires { Ready config map.now × CloseRoom at (length held.now) (length out.old) (length warnings.old) }
    ensures { (c : Counts) (s : State) (n : ℕ) (ps : List Part) (o w : List ℕ) → Parsed (eqb config.kind 0) s.block → Shows config map.now c (going s n [] ps) o w at held.now out.old warnings.old → Shows config map.now c (closed (machine_of config.kind) ps (ends config.kind s n)) o w result held.now out.new warnings.new }
{
    if config.kind == 0 {
        return at;
    }
    let s = at.start;
    let o = at.written;
    let w = at.warned;
    let end = end_block(
        config,
        map,
        at.lines,
        at.counts,
        &held[..s],
        &mut out[o..],
        &mut warnings[w..],
    );
    closing(at, end)
}

// Whether the text is a BOM with no line.
fn bom_alone(n: u32, line: &[u8]) -> bool
    ensures { result ≡ bom_alone_of n line.now }
{
    n == 0 && pattern::equals(line, b"\xEF\xBB\xBF")
}

// After a BOM alone.
fn after_bom(at: Going) -> Going
    ensures { result ≡ bom_to at }
{
    Going { written: 3, ..at }
}

// The end of a text that is a BOM alone: it is written back where the open block passes.
fn close_bom(
    config: Config,
    map: &[u64],
    at: Going,
    held: &[u8],
    out: &mut [u8],
    warnings: &mut [u64],
) -> Going
    requires { Ready config map.now × Opening config at held.now (length out.old) (length warnings.old) }
    ensures { (s : State) → at.columns ≡ s.columns → take at.start held.now ≡ concat s.block → Parsed (eqb config.kind 0) s.block → Shows config map.now at.counts (closed (machine_of config.kind) [] (with_bom (ends config.kind s at.lines))) out.old warnings.old result held.now out.new warnings.new }
{
    let next = after_bom(at);
    if config.kind == 0 {
        put_bom(out);
        return next;
    }
    let s = at.start;
    let end = end_block(
        config,
        map,
        at.lines,
        at.counts,
        &held[..s],
        &mut out[3..],
        warnings,
    );
    if end.number != 0 {
        return stop(at, end.number);
    }
    put_bom(out);
    closing(next, end)
}

// The last line, then the end of the block.
pub fn finish_run(
    config: Config,
    map: &[u64],
    at: Going,
    held: &mut [u8],
    out: &mut [u8],
    warnings: &mut [u64],
) -> Going
    requires { Ready config map.now × Opening config at held.old (length out.old) (length warnings.old) }
    ensures { Shows config map.now at.counts (finish_run (machine_of config.kind) (resume_at at held.old)) out.old warnings.old result held.new out.new warnings.new }
{
    let s = at.start;
    let m = at.held;
    if m == s {
        return close(config, map, at, held, out, warnings);
    }
    if bom_alone(at.lines, &held[s..m]) {
        return close_bom(config, map, at, held, out, warnings);
    }
    let last = end_line(config, map, at, held, out, warnings);
    if last.number != 0 {
        return last;
    }
    close(config, map, last, held, out, warnings)
}
