// Blocks as they are written: number, 504 bytes, sum.
ghost use Rattle.std.specs.Prelude.{◌≡◌, ◌+◌, ◌-◌, ◌*◌, ◌%◌, ◌^◌, ◌≤◌, length, take, drop, replicate};
ghost use Rattle.spec_base.specs.base.Put.{put, put_at};
ghost use Rattle.spec_sheet.specs.checked_blocks.Block.{sum_words};
ghost use Rattle.spec_parked_blocks.specs.parked_blocks.Sealed.{body_length, room_length, sealed_length, word_bytes, words_bytes, sealed, sealed_all, filled, row_in};
ghost use Rattle.spec_parked_blocks.specs.parked_blocks.First.{blocks_for, first_blocks, first_in};

// A word's four bytes, from the place `at` on.
fn put_word(out: &mut [u8], at: usize, w: u32)
    requires { at + 4 ≤ length out.old }
    ensures { out.new ≡ put_at at (word_bytes w) out.old }
{
    out[at..at + 4].copy_from_slice(&w.to_le_bytes());
}

// Words one after the other, at the start.
fn put_words(out: &mut [u8], words: &[u32])
    requires { 4 * length words.now ≤ length out.old }
    ensures { out.new ≡ put (words_bytes words.now) out.old }
{
    for (i, w) in words.iter().enumerate() {
        put_word(out, 4 * i, *w);
    }
}

// Zeros from the place `at` up to the place `end`.
fn put_zeros(out: &mut [u8], at: usize, end: usize)
    requires { (at ≤ end) × (end ≤ length out.old) }
    ensures { out.new ≡ put_at at (replicate (end - at) 0) out.old }
{
    out[at..end].fill(0);
}

// The sum of the first m words, wrapping.
fn sum(s: &[u8], m: usize) -> u32
    ensures { result ≡ sum_words s.now 0 m % 2 ^ 32 }
{
    let mut total: u32 = 0;
    for k in 0..m {
        total = total.wrapping_add(checked_blocks::word(s, k));
    }
    total
}

// Block b with these bytes and zeros behind them, at the start. The zeros are not summed.
fn put_block(out: &mut [u8], b: u32, body: &[u8])
    requires { (512 ≤ length out.old) × (length body.now ≤ body_length) }
    ensures { out.new ≡ put (sealed b (filled body_length body.now)) out.old }
{
    put_word(out, 0, b);
    let end = base::put_at(out, 4, body);
    put_zeros(out, end, 508);
    let check = sum(out, (body.len() + 7) / 4);
    put_word(out, 508, check);
}

// The same from the place `at` on.
fn block_at(out: &mut [u8], at: usize, b: u32, body: &[u8])
    requires { (at + 512 ≤ length out.old) × (length body.now ≤ body_length) }
    ensures { out.new ≡ put_at at (sealed b (filled body_length body.now)) out.old }
{
    put_block(&mut out[at..], b, body);
}

// The n-th 504 bytes.
fn part(held: &[u8], n: usize) -> &[u8]
    requires { n ≤ 17 }
    ensures { result.now ≡ take body_length (drop (body_length * n) held.now) }
{
    base::front(base::rest(held, 504 * n), 504)
}

// Blocks 1 to k with these bytes and zeros behind them, at the start.
fn put_held(out: &mut [u8], held: &[u8], k: usize)
    requires { (8704 ≤ length out.old) × (length held.now ≤ room_length) × (k ≤ 17) }
    ensures { out.new ≡ put (sealed_all 1 k (filled room_length held.now)) out.old }
{
    for n in 0..k {
        block_at(out, 512 * n, (n as u32) + 1, part(held, n));
    }
}

// Block 0 and k more.
fn put_first(out: &mut [u8], head: &[u8], held: &[u8], k: usize)
    requires { (sealed_length ≤ length out.old) × (length head.now ≤ body_length) × (length held.now ≤ room_length) × (k ≤ 17) }
    ensures { out.new ≡ put (first_blocks k head.now held.now) out.old }
{
    put_block(out, 0, head);
    put_held(&mut out[512..], held, k);
}

// How many of blocks 1 to 17 n bytes take.
#[tactic(auto, unfolding(spec_parked_blocks::specs::parked_blocks::First::blocks_for))]
pub fn blocks_for(n: usize) -> usize
    ensures { result ≡ blocks_for n }
{
    n.div_ceil(504).min(17)
}

// Writes, at the start of `out`, block 0 with the bytes of `head`, and as many blocks with those of `held` as n bytes take, zeros behind each. Nothing where 18 blocks or the bytes have no place.
pub fn seal_first(out: &mut [u8], head: &[u8], held: &[u8], n: usize)
    ensures { out.new ≡ put (first_in (length out.old) n head.now held.now) out.old }
{
    if 9216 <= out.len() && head.len() <= 504 && held.len() <= 8568 {
        put_first(out, head, held, blocks_for(n));
    }
}

// All 18 blocks.
pub fn seal(out: &mut [u8], head: &[u8], held: &[u8])
    ensures { out.new ≡ put (row_in (length out.old) head.now held.now) out.old }
{
    seal_first(out, head, held, 8568);
}

// The bytes of 16 words.
pub fn words_bytes(words: [u32; 16]) -> [u8; 64]
    ensures { result ≡ words_bytes words }
{
    // Kept: (1) no heap: the memory is fixed.
    let mut bytes = [0u8; 64];
    put_words(&mut bytes, &words);
    bytes
}
