// The kinds of captions, 0 ASS, 1 SRT and 2 WebVTT, and what each of them fixes about times.
ghost use Rattle.std.specs.Prelude.{◌≡◌};
ghost use Rattle.spec_time.specs.caption_time.Kind.{kind_bad, units_of, mark_of, fraction_digits, hour_digits};

// Whether there is no such kind.
#[tactic(auto, unfolding(spec_time::specs::caption_time::Kind::kind_bad))]
pub fn kind_bad(kind: u32) -> bool
    ensures { result ≡ kind_bad kind }
{
    !matches!(kind, 0..=2)
}

// U, the units of a second; 0 where there is no such kind.
#[tactic(auto, unfolding(spec_time::specs::caption_time::Kind::units_of))]
pub fn units_of(kind: u32) -> u32
    ensures { result ≡ units_of kind }
{
    match kind {
        0 => 100,
        1 | 2 => 1000,
        _ => 0,
    }
}

// The mark before the fraction.
#[tactic(auto, unfolding(spec_time::specs::caption_time::Kind::mark_of))]
pub fn mark_of(kind: u32) -> u8
    ensures { result ≡ mark_of kind }
{
    match kind {
        0 | 2 => b'.',
        1 => b',',
        _ => 0,
    }
}

// How many digits a written fraction has.
#[tactic(auto, unfolding(spec_time::specs::caption_time::Kind::fraction_digits))]
pub fn fraction_digits(kind: u32) -> usize
    ensures { result ≡ fraction_digits kind }
{
    match kind {
        0 => 2,
        1 | 2 => 3,
        _ => 0,
    }
}

// How many digits written hours have at least.
#[tactic(auto, unfolding(spec_time::specs::caption_time::Kind::hour_digits))]
pub fn hour_digits(kind: u32) -> usize
    ensures { result ≡ hour_digits kind }
{
    match kind {
        0 => 1,
        1 | 2 => 2,
        _ => 0,
    }
}
