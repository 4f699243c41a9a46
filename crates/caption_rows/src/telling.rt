// The arguments, the lent places, the text walked, and what is told.
ghost use Rattle.std.specs.Prelude.{◌≡◌, not, [], ◌∷◌, ◌≤◌, leb, length};
ghost use Rattle.refusals.specs.Numbers.{told};
ghost use Rattle.spec_base.specs.base.Limits.{most_taken};
ghost use Rattle.spec_base.specs.base.Refusal.{◌or_else◌, fault_unless};
ghost use Rattle.spec_base.specs.base.Put.{put};
ghost use Rattle.spec_time.specs.caption_time.Kind.{kind_bad};
ghost use Rattle.spec_rows.specs.caption_rows.Walk.{walk_of};
ghost use Rattle.spec_rows.specs.caption_rows.Cues.{CuesRead};

use crate::walking::walk;
use refusals::Refusal;

// 16 for the kind, the text's length or too few told places.
fn arguments_fault(kind: u32, text: usize, lent: usize) -> Result<(), Refusal>
    ensures { told result ≡ (fault_unless (not (kind_bad kind)) 16 or_else fault_unless (leb text most_taken) 16 or_else fault_unless (leb 2 lent) 16) }
{
    if caption_time::kind_bad(kind) || (base::MOST_TAKEN as usize) < text || lent < 2 {
        Err(Refusal::BadArgument)
    } else {
        Ok(())
    }
}

// Whether `lent` places are enough for the captions. Where six are lent for each eight bytes they are: no caption is shorter. Else the captions are counted.
fn places_enough(kind: u32, text: &[u8], lent: usize) -> bool
    requires { length text.now ≤ most_taken }
    ensures { result ≡ leb (length (walk_of kind text.now).rows) lent }
{
    if text.len() / 8 <= lent / 6 {
        return true;
    }
    // Kept: (1) no heap: the memory is fixed.
    let mut none = [0u64; 1];
    let counted = walk(kind, text, &mut none);
    counted.captions <= lent / 6
}

// Two numbers: the captions, and the line of the fault.
fn tell(captions: usize, line: u64, told: &mut [u64])
    requires { 2 ≤ length told.old }
    ensures { told.new ≡ put (captions ∷ line ∷ []) told.old }
{
    told[0] = captions as u64;
    told[1] = line;
}

// The captions of a whole text: six numbers each in `rows`, and in `told` how many there are and the line of the first fault. 16, and nothing is written;
// else the text's number.
pub fn read_cues(kind: u32, text: &[u8], rows: &mut [u64], told: &mut [u64]) -> u32
    ensures { CuesRead kind text.now rows.old rows.new told.old told.new result }
{
    if let Err(why) = arguments_fault(kind, text.len(), told.len()) {
        return u32::from(why);
    }
    if places_enough(kind, text, rows.len()) {
        let walked = walk(kind, text, rows);
        tell(walked.captions, walked.line, told);
        return walked.number;
    }
    u32::from(Refusal::BadArgument)
}
