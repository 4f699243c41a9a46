// Blocks as they are read.
ghost use Rattle.std.specs.Prelude.{◌≡◌, ◌+◌, ◌-◌, ◌*◌, ◌≤◌, ◌&&◌, [], length, take, drop, if◌then◌else◌};
ghost use Rattle.spec_base.specs.base.Put.{put};
ghost use Rattle.spec_sheet.specs.checked_blocks.Block.{block_holds};
ghost use Rattle.spec_parked_blocks.specs.parked_blocks.Sealed.{sealed_length, room_length, body_length, all_hold, bodies, room_of, all_zero, is_row, unsealed};
ghost use Rattle.spec_parked_blocks.specs.parked_blocks.First.{blank_all, short_row, first_room, unsealed_first};

use crate::writing::blocks_for;
use crate::zeros::all_zero;

// Whether the first n blocks hold.
fn all_hold(s: &[u8], n: usize) -> bool
    ensures { result ≡ all_hold s.now 0 n }
{
    for b in 0..n {
        if !checked_blocks::block_holds(s, b) {
            return false;
        }
    }
    true
}

// The bytes of block b.
fn body(s: &[u8], b: usize) -> &[u8]
    requires { b ≤ 17 }
    ensures { result.now ≡ take body_length (drop (512 * b + 4) s.now) }
{
    base::front(base::rest(s, 512 * b + 4), 504)
}

// The bytes of blocks 1 to k, at the start.
fn copy_room(s: &[u8], k: usize, room: &mut [u8])
    requires { (length s.now ≡ sealed_length) × (k ≤ 17) × (room_length ≤ length room.old) }
    ensures { room.new ≡ put (bodies s.now 1 k) room.old }
{
    let mut at: usize = 0;
    for n in 0..k {
        at = base::put_at(room, at, body(s, n + 1));
    }
}

// Whether there are 18 blocks, each with its number and its sum.
#[tactic(auto, unfolding(spec_parked_blocks::specs::parked_blocks::Sealed::is_row))]
fn is_row(s: &[u8]) -> bool
    ensures { result ≡ is_row s.now }
{
    s.len() == 9216 && all_hold(s, 18)
}

// Whether there are 18 blocks that hold, and a place for the bytes of blocks 1 to 17; if so, they are copied to the start of `room`.
pub fn unseal(s: &[u8], room: &mut [u8]) -> bool
    ensures { (result ≡ unsealed s.now (length room.old)) × (room.new ≡ put (if result then room_of s.now else []) room.old) }
{
    if 8568 <= room.len() && is_row(s) {
        copy_room(s, 17, room);
        true
    } else {
        false
    }
}

// Whether block b holds, with nothing but zeros: its sum is its number.
#[tactic(auto, using(spec_parked_blocks::proofs::parked_blocks::FirstLaws::number_wrong, spec_parked_blocks::proofs::parked_blocks::FirstLaws::check_wrong, spec_parked_blocks::proofs::parked_blocks::FirstLaws::zeros_tell))]
fn blank_block(s: &[u8], b: usize) -> bool
    requires { (length s.now ≡ sealed_length) × (b ≤ 17) }
    ensures { result ≡ (block_holds s.now b && all_zero (take body_length (drop (512 * b + 4) s.now))) }
{
    let w = 128 * b;
    checked_blocks::word(s, w) as usize == b
        && checked_blocks::word(s, w + 127) as usize == b
        && all_zero(body(s, b))
}

// Whether the blocks behind the k-th do.
fn blank_behind(s: &[u8], k: usize) -> bool
    requires { (length s.now ≡ sealed_length) × (k ≤ 17) }
    ensures { result ≡ blank_all s.now (k + 1) (17 - k) }
{
    for b in k + 1..18 {
        if !blank_block(s, b) {
            return false;
        }
    }
    true
}

// Whether there are 18 blocks that hold, with nothing but zeros behind the k-th.
#[tactic(auto, using(spec_parked_blocks::proofs::parked_blocks::FirstLaws::short_length, spec_parked_blocks::proofs::parked_blocks::FirstLaws::short_first, spec_parked_blocks::proofs::parked_blocks::FirstLaws::short_rest))]
fn short_row(s: &[u8], k: usize) -> bool
    requires { k ≤ 17 }
    ensures { result ≡ short_row s.now k }
{
    s.len() == 9216 && all_hold(s, k + 1) && blank_behind(s, k)
}

// The same as `unseal`, where only the blocks that n bytes take are to have bytes: these are copied.
pub fn unseal_first(s: &[u8], n: usize, room: &mut [u8]) -> bool
    ensures { (result ≡ unsealed_first s.now n (length room.old)) × (room.new ≡ put (if result then first_room n s.now else []) room.old) }
{
    let k = blocks_for(n);
    if 8568 <= room.len() && short_row(s, k) {
        copy_room(s, k, room);
        true
    } else {
        false
    }
}
