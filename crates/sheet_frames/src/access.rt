// What a sheet says, place by place. What lies past its end counts as 0.
ghost use Rattle.std.specs.Prelude.{◌≡◌, true, ◌<◌, ◌^◌};
ghost use Rattle.spec_sheet.specs.sheet_frames.Frames.{timescale_of, frames_of, rate_num_of, rate_den_of, long_of, record_word, decode_in, decode_by, decode_of, sync_of, duration_in, duration_of};

use order::{DecodeIdx, DisplayIdx};

// T, ticks a second.
pub fn timescale(s: &[u8]) -> u32
    ensures { result ≡ timescale_of s.now }
{
    checked_blocks::word(s, 1)
}

// n, the frame count.
pub fn frames(s: &[u8]) -> u32
    ensures { result ≡ frames_of s.now }
{
    checked_blocks::word(s, 2)
}

// The frame rate's numerator.
pub fn rate_num(s: &[u8]) -> u32
    ensures { result ≡ rate_num_of s.now }
{
    checked_blocks::word(s, 3)
}

// The frame rate's denominator.
pub fn rate_den(s: &[u8]) -> u32
    ensures { result ≡ rate_den_of s.now }
{
    checked_blocks::word(s, 4)
}

// Whether a record's duration has two words.
pub fn long(s: &[u8]) -> bool
    ensures { result ≡ long_of s.now }
{
    checked_blocks::word(s, 5) == 1
}

// Where record i starts, in words: 128 to each block from block 1 on, of which its records, 63 of two words or 42 of three, take 126.
fn record_word(long: bool, i: u32) -> usize
    ensures { (result ≡ record_word long i) × (result < 2 ^ 39) }
{
    let k = i as usize;
    if long {
        129 + 2 * (k / 42) + 3 * k
    } else {
        129 + 2 * (k / 63 + k)
    }
}

// The decode index in a record's first word.
pub fn decode_in(first: u32) -> DecodeIdx
    ensures { result.0 ≡ decode_in first }
{
    DecodeIdx(first % 2147483648)
}

// The decode index of a display frame, by a layout that is told: for a pass over all records.
pub fn decode_by(s: &[u8], long: bool, i: DisplayIdx) -> DecodeIdx
    ensures { result.0 ≡ decode_by long s.now i.0 }
{
    let w = record_word(long, i.0);
    decode_in(checked_blocks::word(s, w))
}

// The decode index of a display frame.
pub fn decode_at(s: &[u8], i: DisplayIdx) -> DecodeIdx
    ensures { result.0 ≡ decode_of s.now i.0 }
{
    decode_by(s, long(s), i)
}

// Whether a display frame is a sync frame.
pub fn sync_at(s: &[u8], i: DisplayIdx) -> bool
    ensures { result ≡ sync_of s.now i.0 }
{
    let w = record_word(long(s), i.0);
    2147483648 <= checked_blocks::word(s, w)
}

// The duration of a sample in the second layout: two words, the low one first.
fn long_duration(s: &[u8], i: u32) -> u64
    ensures { result ≡ duration_in true s.now (record_word true i) }
{
    let w = record_word(true, i);
    let low = u64::from(checked_blocks::word(s, w + 1));
    low + 4294967296 * u64::from(checked_blocks::word(s, w + 2))
}

// The duration of a sample, by a layout that is told: for a pass over many samples.
pub fn duration_by(s: &[u8], long: bool, i: DecodeIdx) -> u64
    ensures { result ≡ duration_in long s.now (record_word long i.0) }
{
    if long {
        long_duration(s, i.0)
    } else {
        let w = record_word(false, i.0);
        u64::from(checked_blocks::word(s, w + 1))
    }
}

// The duration in ticks of a sample, by its decode index.
pub fn duration_at(s: &[u8], i: DecodeIdx) -> u64
    ensures { result ≡ duration_of s.now i.0 }
{
    duration_by(s, long(s), i)
}
