// Fields that are numbers, and the six of a segment.
ghost use Rattle.std.specs.Prelude.{◌≡◌, ◌≢◌, true, false, None, MatchOption};
ghost use Rattle.spec_json.specs.json.Str.{string_bytes};
ghost use Rattle.spec_json.specs.json.Value.{value_width};
ghost use Rattle.spec_json.specs.json.Walk.{item_width, row_of};
ghost use Rattle.map_json_segments.specs.declared.number.Slot.TheVariants.{Missing};
ghost use Rattle.map_json_segments.specs.Slots.{no_slots, is_given, given, slot_with, field_named, field_number, slots_after, all_given, numbers_in};
ghost use Rattle.map_json_segments.specs.Fields.{MemberIn, SlotsIn, ItemIn};

// The largest number of 32 bits.
pub const MOST_FRAME: u64 = u32::MAX as u64;

// What stands of a field so far.
// Kept: (4) three cases: an Option of an Option would not say which is which.
#[derive(Clone, Copy, Debug, PartialEq, Eq)]
pub enum Slot {
    // No value.
    Missing,
    // One value, a number.
    Given(u64),
    // A value that is no number, or more than one.
    Refused,
}

// A field's number, where it has one.
pub fn number_in(x: Slot) -> Option<u64>
    ensures { MatchOption result (is_given x ≡ false) (λ n. (is_given x ≡ true) × (n ≡ given x)) }
{
    match x {
        Slot::Given(n) => Some(n),
        Slot::Missing | Slot::Refused => None,
    }
}

// A field's slot, with one value more.
#[tactic(auto, unfolding(crate::specs::Slots::slot_with))]
pub fn slot_with(x: Slot, v: &[u8], most: u64) -> Slot
    ensures { result ≡ slot_with most x v.now }
{
    match x {
        Slot::Missing => slot_of(v, most),
        Slot::Given(_) | Slot::Refused => Slot::Refused,
    }
}

// The slot of a first value.
#[tactic(auto, unfolding(crate::specs::Slots::slot_with))]
fn slot_of(v: &[u8], most: u64) -> Slot
    ensures { result ≡ slot_with most Missing v.now }
{
    match json_values::plain_value(v, most) {
        Some(n) => Slot::Given(n),
        None => Slot::Refused,
    }
}

// The fields of a segment.
#[derive(Clone, Copy, Debug, PartialEq, Eq)]
enum Field {
    First,
    Last,
    Source,
    Frames,
    Output,
    Duration,
}

// Their slots.
#[derive(Clone, Copy)]
pub struct Slots {
    pub first: Slot,
    pub last: Slot,
    pub source: Slot,
    pub frames: Slot,
    pub output: Slot,
    pub duration: Slot,
}

fn no_slots() -> Slots
    ensures { result ≡ no_slots }
{
    Slots {
        first: Slot::Missing,
        last: Slot::Missing,
        source: Slot::Missing,
        frames: Slot::Missing,
        output: Slot::Missing,
        duration: Slot::Missing,
    }
}

// Which field of a segment a key names.
#[tactic(auto, unfolding(crate::specs::Slots::field_named))]
fn field_named(key: &[u8]) -> Option<Field>
    ensures { field_number result ≡ field_named (string_bytes key.now) }
{
    if json_strings::name_is(key, b"source_start_frame") {
        Some(Field::First)
    } else if json_strings::name_is(key, b"source_end_frame") {
        Some(Field::Last)
    } else if json_strings::name_is(key, b"source_start_dts") {
        Some(Field::Source)
    } else if json_strings::name_is(key, b"frame_count") {
        Some(Field::Frames)
    } else if json_strings::name_is(key, b"output_start") {
        Some(Field::Output)
    } else if json_strings::name_is(key, b"duration") {
        Some(Field::Duration)
    } else {
        None
    }
}

// A segment's slots behind a member.
fn slots_after(x: Slots, key: &[u8], v: &[u8]) -> Slots
    ensures { result ≡ slots_after x (record { name = string_bytes key.now; value = v.now }) }
{
    match field_named(key) {
        Some(Field::First) => Slots {
            first: slot_with(x.first, v, MOST_FRAME),
            ..x
        },
        Some(Field::Last) => Slots {
            last: slot_with(x.last, v, MOST_FRAME),
            ..x
        },
        Some(Field::Source) => Slots {
            source: slot_with(x.source, v, u64::MAX),
            ..x
        },
        Some(Field::Frames) => Slots {
            frames: slot_with(x.frames, v, MOST_FRAME),
            ..x
        },
        Some(Field::Output) => Slots {
            output: slot_with(x.output, v, u64::MAX),
            ..x
        },
        Some(Field::Duration) => Slots {
            duration: slot_with(x.duration, v, u64::MAX),
            ..x
        },
        None => x,
    }
}

// The slots behind members, and how wide these are.
#[derive(Clone, Copy)]
pub struct Found {
    pub slots: Slots,
    pub width: usize,
}

// The slots behind the first member of the row `t`.
fn member_in(x: Slots, t: &[u8]) -> Option<Found>
    ensures { MatchOption result (item_width 0x7B (value_width 8) t.now ≡ 0) (λ f. MemberIn x t.now f) }
{
    let p = json_values::item_parts(8, b'{', t);
    if p.whole == 0 {
        return None;
    }
    let v = base::front(base::rest(t, p.lead), p.width);
    let slots = slots_after(x, base::rest(t, json_values::spaces(t)), v);
    Some(Found {
        slots,
        width: p.whole,
    })
}

// The slots behind all members of the row `s`, with the byte that closes it.
// Kept: no iterator is plainer than the place `at` here, since each step is as wide as its member.
fn slots_in(s: &[u8]) -> Option<Found>
    ensures { MatchOption result (row_of 8 0x7B s.now ≡ 0) (λ f. SlotsIn s.now f) }
{
    let mut x = no_slots();
    let mut at = 0;
    while at < s.len() {
        let t = base::rest(s, at);
        let m = member_in(x, t)?;
        match base::get_or(t, m.width, 0) {
            b',' => at = at + m.width + 1,
            b'}' => {
                return Some(Found {
                    slots: m.slots,
                    width: at + m.width + 1,
                });
            }
            _ => return None,
        }
        x = m.slots;
    }
    None
}

// The numbers of a segment.
#[derive(Clone, Copy, Debug, PartialEq, Eq)]
pub struct Six {
    pub first: u64,
    pub last: u64,
    pub source: u64,
    pub frames: u64,
    pub output: u64,
    pub duration: u64,
}

// The numbers in a segment's slots, where all are there.
fn six_in(x: Slots) -> Option<Six>
    ensures { MatchOption result (all_given x ≡ false) (λ y. (all_given x ≡ true) × (y ≡ numbers_in x)) }
{
    Some(Six {
        first: number_in(x.first)?,
        last: number_in(x.last)?,
        source: number_in(x.source)?,
        frames: number_in(x.frames)?,
        output: number_in(x.output)?,
        duration: number_in(x.duration)?,
    })
}

// An item of the list: how wide it is, and its numbers where it is a segment.
#[derive(Clone, Copy, Debug, PartialEq, Eq)]
pub struct Element {
    pub six: Option<Six>,
    pub width: usize,
}

// An item that is no segment.
fn other_in(t: &[u8]) -> Option<Element>
    ensures { MatchOption result (item_width 0x5B (value_width 9) t.now ≡ 0) (λ x. (x.six ≡ None) × (x.width ≡ item_width 0x5B (value_width 9) t.now) × (x.width ≢ 0)) }
{
    match json_values::item_width(9, b'[', t) {
        0 => None,
        width => Some(Element { six: None, width }),
    }
}

// The first item of the row `t`. A segment is walked once.
pub fn segment_in(t: &[u8]) -> Option<Element>
    ensures { MatchOption result (item_width 0x5B (value_width 9) t.now ≡ 0) (λ x. ItemIn t.now x) }
{
    let p = json_values::spaces(t);
    let u = base::rest(t, p);
    if base::get_or(u, 0, 0) != b'{' {
        return other_in(t);
    }
    match slots_in(base::rest(u, 1)) {
        Some(x) => {
            let e = p + x.width + 1;
            Some(Element {
                six: six_in(x.slots),
                width: e + json_values::spaces(base::rest(t, e)),
            })
        }
        None => other_in(t),
    }
}
