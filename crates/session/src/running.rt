// A piece is taken byte by byte. `Going` says how far the call is: the text's number and counts, what is held, and how much is written.
// The held bytes up to `start` are the open block, those up to `held` also the unfinished line.
ghost use Rattle.std.specs.Prelude.{◌≡◌, true, List, ◌++◌, ℕ, ◌≤◌, ◌<◌, ◌+◌, ◌-◌, ◌^◌, eqb, length, take, drop};
ghost use Rattle.spec_caption.specs.caption_fate.Says.{Part};
ghost use Rattle.spec_machine.specs.declared.session_counts.Counts.{Counts};
ghost use Rattle.spec_machine.specs.session_counts.Machine.{Run, going, line_end, take_line, byte_step, run};
ghost use Rattle.spec_machine.specs.kinds.Takes.{State, machine_of};
ghost use Rattle.spec_session.specs.session_lines.Done.{Ready, Parsed};
ghost use Rattle.spec_session.specs.session.Stand.{Joins, Shows, Room, ByteRoom, Opening, ParsedIn, resume_at, stopped_at, holding_to, lined_to};

use caption_fate::Config;
use session_counts::Counts;
use session_lines::{Taken, take_line};
use spec_session::session::Going;

// The call stops with a fault of the text.
pub fn stop(at: Going, number: u32) -> Going
    ensures { result ≡ stopped_at at number }
{
    Going { number, ..at }
}

// The same with m bytes held.
fn holding(at: Going, m: usize) -> Going
    ensures { result ≡ holding_to at m }
{
    Going { held: m, ..at }
}

// After a line that was taken: one line more, what it wrote, and an open block of e bytes.
fn lined(at: Going, told: Taken, e: usize) -> Going
    requires { (at.lines ≤ 2 ^ 31) × (at.written + told.written < 2 ^ 64) × (at.warned + told.warned < 2 ^ 64) }
    ensures { result ≡ lined_to at told e }
{
    Going {
        number: 0,
        lines: at.lines + 1,
        counts: told.counts,
        columns: told.columns,
        start: e,
        held: e,
        written: at.written + told.written,
        warned: at.warned + told.warned,
    }
}

// Moves n held bytes from s + k down to s: k bytes before them, a BOM, are left out.
fn move_down(held: &mut [u8], s: usize, k: usize, n: usize)
    requires { (s + k) + n ≤ length held.old }
    ensures { take (s + n) held.new ≡ take s held.old ++ take n (drop (s + k) held.old) }
{
    if k == 0 {
        return;
    }
    for i in 0..n {
        held[s + i] = held[s + k + i];
    }
}

// Takes the line that the held bytes end with. It joins the open block, or it is written and the block is empty.
pub fn end_line(
    config: Config,
    map: &[u64],
    at: Going,
    held: &mut [u8],
    out: &mut [u8],
    warnings: &mut [u64],
) -> Going
    requires { Ready config map.now × Room at (length held.old) (length out.old) (length warnings.old) }
    ensures { (c : Counts) (s : State) (n : ℕ) (l : List ℕ) (ps : List Part) (o w : List ℕ) → Parsed (eqb config.kind 0) s.block → Shows config map.now c (going s n l ps) o w at held.old out.old warnings.old → Shows config map.now c (line_end (machine_of config.kind) n ps (take_line (machine_of config.kind) s n l)) o w result held.new out.new warnings.new }
{
    let s = at.start;
    let m = at.held;
    let o = at.written;
    let w = at.warned;
    let told = take_line(
        config,
        map,
        at.lines,
        at.counts,
        at.columns,
        &held[..m],
        s,
        &mut out[o..],
        &mut warnings[w..],
    );
    if told.number != 0 {
        return stop(at, told.number);
    }
    if !told.added {
        return lined(at, told, 0);
    }
    let k = told.skip;
    move_down(held, s, k, m - s - k);
    lined(at, told, m - k)
}

// Takes one byte: 19 where the line is too long, else it is held, and LF ends the line.
fn step(
    config: Config,
    map: &[u64],
    at: Going,
    b: u8,
    held: &mut [u8],
    out: &mut [u8],
    warnings: &mut [u64],
) -> Going
    requires { Ready config map.now × (at.number ≡ 0 → ByteRoom at (length held.old) (length out.old) (length warnings.old)) }
    ensures { (c : Counts) (q : Run State) (o w : List ℕ) → ParsedIn (eqb config.kind 0) q → Shows config map.now c q o w at held.old out.old warnings.old → Shows config map.now c (byte_step (machine_of config.kind) q b) o w result held.new out.new warnings.new }
{
    if at.number != 0 {
        return at;
    }
    let n = at.held;
    if base::MOST_LINE <= n - at.start {
        return stop(at, 19);
    }
    held[n] = b;
    let more = holding(at, n + 1);
    if b != b'\n' {
        return more;
    }
    end_line(config, map, more, held, out, warnings)
}

// Whether a byte only joins the unfinished line, of which k bytes are held: no fault, no line end, room in the line.
fn joins(number: u32, k: usize, b: u8) -> bool
    ensures { result ≡ true → Joins number k b }
{
    number == 0 && k < base::MOST_LINE && b != b'\n'
}

// All bytes of a piece. `m` bytes are held; `at` is made anew only where a line ends.
pub fn run_piece(
    config: Config,
    map: &[u64],
    start: Going,
    piece: &[u8],
    held: &mut [u8],
    out: &mut [u8],
    warnings: &mut [u64],
) -> Going
    requires { Ready config map.now × Opening config start held.old (length out.old) (length warnings.old) × (length piece.now ≤ 1024) }
    ensures { Shows config map.now start.counts (run (machine_of config.kind) (resume_at start held.old) piece.now) out.old warnings.old result held.new out.new warnings.new }
{
    let mut at = start;
    let mut m = start.held;
    for b in piece {
        if joins(at.number, m.saturating_sub(at.start), *b) {
            held[m] = *b;
            m += 1;
        } else {
            at = step(config, map, holding(at, m), *b, held, out, warnings);
            m = at.held;
        }
    }
    holding(at, m)
}
