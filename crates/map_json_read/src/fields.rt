// The fields of a map's text, and the depth of the others.
ghost use Rattle.std.specs.Prelude.{◌≡◌, true, false, MatchOption};
ghost use Rattle.spec_json.specs.json.Str.{string_bytes};
ghost use Rattle.spec_json.specs.json.Value.{is_value};
ghost use Rattle.spec_map_json.specs.map_json_write.Reads.{path_said};
ghost use Rattle.map_json_read.specs.Slots.{head_named, head_number, no_heads, heads_by, word_of, heads_good, heads_in};

use map_json_segments::number::{MOST_FRAME, Slot, number_in, slot_with};

// The fields of a map.
#[derive(Clone, Copy, Debug, PartialEq, Eq)]
pub enum Head {
    Timescale,
    RateNum,
    RateDen,
    Input,
    Frames,
    Segments,
}

// Which field of a map a key names.
#[tactic(auto, unfolding(crate::specs::Slots::head_named))]
pub fn head_named(key: &[u8]) -> Option<Head>
    ensures { head_number result ≡ head_named (string_bytes key.now) }
{
    if json_strings::name_is(key, b"video_timescale") {
        Some(Head::Timescale)
    } else if json_strings::name_is(key, b"frame_rate_num") {
        Some(Head::RateNum)
    } else if json_strings::name_is(key, b"frame_rate_den") {
        Some(Head::RateDen)
    } else if json_strings::name_is(key, b"input") {
        Some(Head::Input)
    } else if json_strings::name_is(key, b"total_frames") {
        Some(Head::Frames)
    } else if json_strings::name_is(key, b"segments") {
        Some(Head::Segments)
    } else {
        None
    }
}

// Whether `s` is one value with nothing around it.
fn is_value(depth: usize, s: &[u8]) -> bool
    ensures { result ≡ is_value depth s.now }
{
    let w = json_values::value_width(depth, s);
    w != 0 && w == s.len()
}

// A path of at most 1,024 bytes.
pub fn path_good(v: &[u8]) -> bool
    ensures { result ≡ path_said v.now }
{
    base::get_or(v, 0, 0) == b'"' && json_strings::string_size(v) <= 1024
}

// The slots of a map's numbers, whether its path and its list were seen, and whether the members so far are known or at most 8 deep.
#[derive(Clone, Copy)]
pub struct HeadSlots {
    pub timescale: Slot,
    pub rate_num: Slot,
    pub rate_den: Slot,
    pub frames: Slot,
    pub path: bool,
    pub list: bool,
    pub shallow: bool,
}

pub fn no_heads() -> HeadSlots
    ensures { result ≡ no_heads }
{
    HeadSlots {
        timescale: Slot::Missing,
        rate_num: Slot::Missing,
        rate_den: Slot::Missing,
        frames: Slot::Missing,
        path: false,
        list: false,
        shallow: true,
    }
}

// The slots behind a member whose key names the field `n`.
pub(crate) fn heads_after(x: HeadSlots, n: Option<Head>, v: &[u8]) -> HeadSlots
    ensures { result ≡ heads_by (head_number n) x v.now }
{
    match n {
        Some(Head::Timescale) => HeadSlots {
            timescale: slot_with(x.timescale, v, MOST_FRAME),
            ..x
        },
        Some(Head::RateNum) => HeadSlots {
            rate_num: slot_with(x.rate_num, v, MOST_FRAME),
            ..x
        },
        Some(Head::RateDen) => HeadSlots {
            rate_den: slot_with(x.rate_den, v, MOST_FRAME),
            ..x
        },
        Some(Head::Input) => HeadSlots { path: true, ..x },
        Some(Head::Frames) => HeadSlots {
            frames: slot_with(x.frames, v, MOST_FRAME),
            ..x
        },
        Some(Head::Segments) => HeadSlots { list: true, ..x },
        None => HeadSlots {
            shallow: x.shallow && is_value(8, v),
            ..x
        },
    }
}

// The numbers of a map that are no segment's.
#[derive(Clone, Copy, Debug, PartialEq, Eq)]
pub struct Heads {
    pub timescale: u32,
    pub rate_num: u32,
    pub rate_den: u32,
    pub frames: u32,
}

// A number of 32 bits; 0 where it is larger.
#[tactic(auto, unfolding(crate::specs::Slots::word_of))]
fn word(n: u64) -> u32
    ensures { result ≡ word_of n }
{
    u32::try_from(n).unwrap_or(0)
}

// They, where all are there and no other member is too deep.
pub fn heads_of(x: HeadSlots) -> Option<Heads>
    ensures { MatchOption result (heads_good x ≡ false) (λ h. (heads_good x ≡ true) × (h ≡ heads_in x)) }
{
    if !x.shallow {
        return None;
    }
    Some(Heads {
        timescale: word(number_in(x.timescale)?),
        rate_num: word(number_in(x.rate_num)?),
        rate_den: word(number_in(x.rate_den)?),
        frames: word(number_in(x.frames)?),
    })
}
