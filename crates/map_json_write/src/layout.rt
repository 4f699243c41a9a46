// The text of a map, piece by piece.
ghost use Rattle.std.specs.Prelude.{[], ◌∷◌, ◌++◌, ◌+◌, ◌≤◌, length};
ghost use Rattle.spec_map.specs.segment.Segment.{segments_of};
ghost use Rattle.spec_map_json.specs.map_json_write.Text.{line2, segment_text, list_text, map_text};
ghost use Rattle.map_json_write.specs.Written.{Written, segment_at, front_text, back_text, rates_text, path_text, tail_text, rest_text};

use crate::pieces::{bytes_at, named_at};
use crate::quoting::quoted_at;

fn front_at(out: &mut [u8], at: usize, a: u64, b: u64, c: u64) -> usize
    requires { at ≤ 700000 }
    ensures { Written at (front_text a b c) out.old result out.new × (result ≤ at + 252) }
{
    let p = named_at(out, at, b"{\n      \"source_start_frame\": ", a);
    let q = named_at(out, p, b",\n      \"source_end_frame\": ", b);
    named_at(out, q, b",\n      \"source_start_dts\": ", c)
}

fn back_at(out: &mut [u8], at: usize, d: u64, e: u64, f: u64) -> usize
    requires { at ≤ 710000 }
    ensures { Written at (back_text d e f) out.old result out.new × (result ≤ at + 258) }
{
    let p = named_at(out, at, b",\n      \"frame_count\": ", d);
    let q = named_at(out, p, b",\n      \"output_start\": ", e);
    let r = named_at(out, q, b",\n      \"duration\": ", f);
    bytes_at(out, r, b"\n    }")
}

// The first segment of `map`.
fn segment_at(out: &mut [u8], at: usize, map: &[u64]) -> usize
    requires { at ≤ 700000 }
    ensures { Written at (segment_text (segment_at map.now)) out.old result out.new × (result ≤ at + 510) }
{
    let p = front_at(
        out,
        at,
        base::get_or(map, 0, 0),
        base::get_or(map, 1, 0),
        base::get_or(map, 2, 0),
    );
    back_at(
        out,
        p,
        base::get_or(map, 3, 0),
        base::get_or(map, 4, 0),
        base::get_or(map, 5, 0),
    )
}

// The same behind a text.
fn led_at(out: &mut [u8], at: usize, lead: &[u8], map: &[u64]) -> usize
    requires { (at ≤ 600000) × (length lead.now ≤ 30) }
    ensures { Written at (lead.now ++ segment_text (segment_at map.now)) out.old result out.new × (result ≤ at + 540) }
{
    let p = bytes_at(out, at, lead);
    segment_at(out, p, map)
}

fn close_at(out: &mut [u8], at: usize) -> usize
    requires { at ≤ 600000 }
    ensures { Written at (line2 ++ 0x5D ∷ []) out.old result out.new }
{
    bytes_at(out, at, b"\n  ]")
}

// The segments of `map`, each behind a comma, and the end of the list.
fn rest_at(out: &mut [u8], at: usize, map: &[u64]) -> usize
    requires { (at ≤ 21000) × (length map.now ≤ 6144) }
    ensures { Written at (rest_text (segments_of map.now)) out.old result out.new × (result ≤ 600000) }
{
    let mut p = at;
    for s in map.chunks_exact(6) {
        p = led_at(out, p, b",\n    ", s);
    }
    close_at(out, p)
}

// The segments of `map`, one or more.
fn items_at(out: &mut [u8], at: usize, map: &[u64]) -> usize
    requires { (at ≤ 20000) × ((6 ≤ length map.now) × (length map.now ≤ 6144)) }
    ensures { Written at (list_text (segments_of map.now)) out.old result out.new × (result ≤ 600000) }
{
    let p = led_at(out, at, b"[\n    ", map);
    rest_at(out, p, base::rest(map, 6))
}

// All segments.
fn list_at(out: &mut [u8], at: usize, map: &[u64]) -> usize
    requires { (at ≤ 20000) × (length map.now ≤ 6144) }
    ensures { Written at (list_text (segments_of map.now)) out.old result out.new × (result ≤ 600000) }
{
    if map.len() < 6 {
        return bytes_at(out, at, b"[]");
    }
    items_at(out, at, map)
}

fn rates_at(out: &mut [u8], timescale: u32, rate_num: u32, rate_den: u32) -> usize
    ensures { Written 0 (rates_text timescale rate_num rate_den) out.old result out.new × (result ≤ 252) }
{
    let p = named_at(out, 0, b"{\n  \"video_timescale\": ", u64::from(timescale));
    let q = named_at(out, p, b",\n  \"frame_rate_num\": ", u64::from(rate_num));
    named_at(out, q, b",\n  \"frame_rate_den\": ", u64::from(rate_den))
}

fn path_at(out: &mut [u8], at: usize, path: &[u8], frames: u32) -> usize
    requires { (at ≤ 252) × (length path.now ≤ 1024) }
    ensures { Written at (path_text path.now frames) out.old result out.new × (result ≤ 10000) }
{
    let q = bytes_at(out, at, b",\n  \"input\": ");
    let e = quoted_at(out, q, path);
    named_at(out, e, b",\n  \"total_frames\": ", u64::from(frames))
}

fn tail_at(out: &mut [u8], at: usize, map: &[u64]) -> usize
    requires { (at ≤ 10000) × (length map.now ≤ 6144) }
    ensures { Written at (tail_text (segments_of map.now)) out.old result out.new }
{
    let p = bytes_at(out, at, b",\n  \"segments\": ");
    let q = list_at(out, p, map);
    bytes_at(out, q, b"\n}\n")
}

// The whole text of a map, from the first place on.
pub fn map_at(
    out: &mut [u8],
    map: &[u64],
    timescale: u32,
    rate_num: u32,
    rate_den: u32,
    path: &[u8],
    frames: u32,
) -> usize
    requires { (length map.now ≤ 6144) × (length path.now ≤ 1024) }
    ensures { Written 0 (map_text timescale rate_num rate_den path.now frames (segments_of map.now)) out.old result out.new }
{
    let p = rates_at(out, timescale, rate_num, rate_den);
    let q = path_at(out, p, path, frames);
    tail_at(out, q, map)
}
