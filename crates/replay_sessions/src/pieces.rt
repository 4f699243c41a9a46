// How a text is cut into pieces.
ghost use Rattle.std.specs.Prelude.{◌≤◌};

// The next number of a plan by which a text is cut.
pub fn next_draw(draw: u32) -> u32 {
    ((u64::from(draw) * 1103515245 + 12345) % 2147483648) as u32
}

// The bytes of the next piece: 1,024 by plan 0, else 1 to 1,024, at most one more than the plan's remainder by 1,024.
pub fn piece_size(plan: u32, draw: u32) -> usize
    ensures { 1 ≤ result }
{
    if plan == 0 {
        1024
    } else {
        (1 + draw / 65536 % (1 + plan % 1024)) as usize
    }
}
