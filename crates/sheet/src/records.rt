// The blocks after block 0: number and check, then the records of each.
ghost use Rattle.std.specs.Prelude.{◌≡◌, ◌+◌, ◌-◌, ◌*◌, ◌^◌, ◌<◌, ◌≤◌};
ghost use Rattle.refusals.specs.Numbers.{told};
ghost use Rattle.spec_base.specs.base.Refusal.{first_of};
ghost use Rattle.spec_sheet.specs.sheet_frames.Frames.{long_of, per_block, record_width, record_word};
ghost use Rattle.spec_sheet.specs.sheet.Sheet.{record_fault, check_fault, block_fault, record_blocks};

use refusals::Refusal;

// Records to a block, and words to a record.
fn per_block(long: bool) -> usize
    ensures { (result ≡ per_block long) × (result ≤ 63) }
{
    if long { 42 } else { 63 }
}

fn record_width(long: bool) -> usize
    ensures { (result ≡ record_width long) × (result ≤ 3) }
{
    if long { 3 } else { 2 }
}

// The first record of block b.
fn first_record(long: bool, b: usize) -> usize
    requires { (0 < b) × (b < 2 ^ 32) }
    ensures { (result ≡ per_block long * (b - 1)) × (result < 2 ^ 38) }
{
    if long { 42 * (b - 1) } else { 63 * (b - 1) }
}

// Record i of n, which starts at word w.
fn record_fault<const LONG: bool>(s: &[u8], n: usize, i: usize, w: usize) -> Result<(), Refusal>
    requires { (LONG ≡ long_of s.now) × (w ≡ record_word LONG i) × (w < 2 ^ 40) }
    ensures { told result ≡ record_fault s.now n i }
{
    let first = checked_blocks::word(s, w);
    if i < n {
        let decode = sheet_frames::decode_in(first);
        if n <= decode.0 as usize {
            return Err(Refusal::SheetRecord);
        }
        return Ok(());
    }
    if first != 0 || checked_blocks::word(s, w + 1) != 0 {
        return Err(Refusal::SheetRecord);
    }
    if LONG && checked_blocks::word(s, w + 2) != 0 {
        Err(Refusal::SheetRecord)
    } else {
        Ok(())
    }
}

// The records of block b, by a layout that is told as a constant.
fn records_fault<const LONG: bool>(s: &[u8], n: usize, b: usize) -> Result<(), Refusal>
    requires { (LONG ≡ long_of s.now) × (0 < b) × (b < 2 ^ 32) }
    ensures { told result ≡ first_of (record_fault s.now n) (per_block LONG * (b - 1)) (per_block LONG) }
{
    let per = per_block(LONG);
    let width = record_width(LONG);
    let start = first_record(LONG, b);
    let end = start + per;
    for i in start..end {
        let w = 128 * b + 1 + width * (i - start);
        record_fault::<LONG>(s, n, i, w)?;
    }
    Ok(())
}

// Block b's number and check.
pub fn check_fault(s: &[u8], b: usize) -> Result<(), Refusal>
    ensures { told result ≡ check_fault s.now b }
{
    if checked_blocks::block_holds(s, b) {
        Ok(())
    } else {
        Err(Refusal::SheetBlock)
    }
}

// Block b, from 1 on.
fn block_fault(s: &[u8], long: bool, n: usize, b: usize) -> Result<(), Refusal>
    requires { (long ≡ long_of s.now) × (0 < b) × (b < 2 ^ 32) }
    ensures { told result ≡ block_fault s.now n b }
{
    check_fault(s, b)?;
    if long {
        records_fault::<true>(s, n, b)
    } else {
        records_fault::<false>(s, n, b)
    }
}

// How many blocks hold the records of n frames.
pub fn record_blocks(long: bool, n: u32) -> usize
    ensures { (result ≡ record_blocks long n) × (result < 2 ^ 31) }
{
    let k = n as usize;
    if long { k.div_ceil(42) } else { k.div_ceil(63) }
}

// Every block after block 0, of a sheet of n frames.
pub fn blocks_fault(s: &[u8], n: u32) -> Result<(), Refusal>
    ensures { told result ≡ first_of (block_fault s.now n) 1 (record_blocks (long_of s.now) n) }
{
    let count = n as usize;
    let long = sheet_frames::long(s);
    let end = record_blocks(long, n) + 1;
    for b in 1..end {
        block_fault(s, long, count, b)?;
    }
    Ok(())
}
