// What an answer leaves in a place.
ghost use Rattle.std.specs.Prelude.{◌≡◌};
ghost use Rattle.spec_base.specs.base.Refusal.{left_in};

// The value of an answer where its number is 0, else what stood before.
pub fn left_in(number: u32, value: u64, before: u64) -> u64
    ensures { result ≡ left_in number value before }
{
    if number == 0 { value } else { before }
}
