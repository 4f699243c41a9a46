// The refusals, in the order of their numbers.
ghost use Rattle.std.specs.Prelude.{◌≡◌};
ghost use Rattle.refusals.specs.Numbers.{number_of, told};

/// Why a call is refused. `u32::from` gives its number.
#[derive(Clone, Copy, Debug, PartialEq, Eq)]
pub enum Refusal {
    Shape,
    Number,
    Backward,
    LastFrame,
    Crossing,
    ListTooLong,
    Overlap,
    TurnedOver,
    PastTheEnd,
    SheetLength,
    SheetBlock,
    SheetHead,
    SheetRecord,
    BadMap,
    BadArgument,
    ForeignSession,
    Ended,
    LongLine,
    NotUtf8,
    LongBlock,
    BadTime,
    NoMapText,
    FirstLine,
    SampleNamedTwice,
    TooManyTicks,
    NotParked,
    NotAscending,
    TooManyCaptions,
}

impl From<Refusal> for u32 {
    ghost from_gives = { λ r n. n ≡ number_of r };

    fn from(r: Refusal) -> u32 {
        match r {
            Refusal::Shape => 2,
            Refusal::Number => 3,
            Refusal::Backward => 4,
            Refusal::LastFrame => 5,
            Refusal::Crossing => 6,
            Refusal::ListTooLong => 7,
            Refusal::Overlap => 8,
            Refusal::TurnedOver => 9,
            Refusal::PastTheEnd => 10,
            Refusal::SheetLength => 11,
            Refusal::SheetBlock => 12,
            Refusal::SheetHead => 13,
            Refusal::SheetRecord => 14,
            Refusal::BadMap => 15,
            Refusal::BadArgument => 16,
            Refusal::ForeignSession => 17,
            Refusal::Ended => 18,
            Refusal::LongLine => 19,
            Refusal::NotUtf8 => 20,
            Refusal::LongBlock => 21,
            Refusal::BadTime => 22,
            Refusal::NoMapText => 23,
            Refusal::FirstLine => 24,
            Refusal::SampleNamedTwice => 25,
            Refusal::TooManyTicks => 26,
            Refusal::NotParked => 27,
            Refusal::NotAscending => 28,
            Refusal::TooManyCaptions => 29,
        }
    }
}

/// The number of an answer: 0, or that of its refusal.
pub fn number<T: Copy>(answer: Result<T, Refusal>) -> u32
    ensures { result ≡ told answer }
{
    match answer {
        Ok(_) => 0,
        Err(r) => u32::from(r),
    }
}
