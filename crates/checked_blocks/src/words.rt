// Words of a string of bytes, and the number and check of a block of them.
ghost use Rattle.std.specs.Prelude.{◌≡◌, ◌+◌, ◌*◌, ◌/◌, ◌%◌, ◌^◌, ◌≤◌, length};
ghost use Rattle.spec_sheet.specs.checked_blocks.Block.{word_at, sum_words, block_holds};

// Word i, all of whose bytes are there.
fn word_in(s: &[u8], i: usize) -> u32
    requires { 4 * i + 4 ≤ length s.now }
    ensures { result ≡ word_at s.now i }
{
    let at = 4 * i;
    u32::from_le_bytes([s[at], s[at + 1], s[at + 2], s[at + 3]])
}

// The word after the last whole one: what bytes are left.
fn word_cut(s: &[u8]) -> u32
    ensures { result ≡ word_at s.now (length s.now / 4) }
{
    let at = 4 * (s.len() / 4);
    u32::from_le_bytes([
        base::get_or(s, at, 0),
        base::get_or(s, at + 1, 0),
        base::get_or(s, at + 2, 0),
        0,
    ])
}

// Word i; missing bytes are 0.
pub fn word(s: &[u8], i: usize) -> u32
    ensures { result ≡ word_at s.now i }
{
    let whole = s.len() / 4;
    if i < whole {
        word_in(s, i)
    } else if whole < i {
        0
    } else {
        word_cut(s)
    }
}

// The sum of 127 words from word i on, wrapping.
fn sum(s: &[u8], i: usize) -> u32
    requires { 4 * i + 512 ≤ length s.now }
    ensures { result ≡ sum_words s.now i 127 % 2 ^ 32 }
{
    let mut total: u32 = 0;
    for k in 0..127 {
        total = total.wrapping_add(word_in(s, i + k));
    }
    total
}

// Whether block b is wholly there, with its number and its check.
pub fn block_holds(s: &[u8], b: usize) -> bool
    ensures { result ≡ block_holds s.now b }
{
    b < s.len() / 512
        && word_in(s, 128 * b) as usize == b
        && word_in(s, 128 * b + 127) == sum(s, 128 * b)
}
