// A line of `times.txt` read.
ghost use Rattle.std.specs.Prelude.{◌≡◌};
ghost use Rattle.files_why.specs.Question.{kind_of, word_of, behind_word, both_read, question_of};

use caption_stamp::Stamp;

// Why a line does not read: it names no kind, or a time does not read.
#[derive(Clone, Copy, Debug, PartialEq, Eq)]
pub enum Unread {
    Kind,
    Times,
}

// The caption's kind and times in units, and the mark of its start.
#[derive(Clone, Copy, Debug, PartialEq, Eq)]
pub struct Question {
    pub kind: u32,
    pub start: u64,
    pub stop: u64,
    pub mark: u8,
}

// The number of the kind that a word names.
fn kind_of(w: &[u8]) -> Option<u32>
    ensures { result ≡ kind_of w.now }
{
    if pattern::equals(w, b"ass") {
        Some(0)
    } else if pattern::equals(w, b"srt") {
        Some(1)
    } else if pattern::equals(w, b"vtt") {
        Some(2)
    } else {
        None
    }
}

fn word_of(t: &[u8]) -> &[u8]
    ensures { result.now ≡ word_of t.now }
{
    pattern::up_to(t, b" ")
}

fn behind_word(t: &[u8]) -> &[u8]
    ensures { result.now ≡ behind_word t.now }
{
    whitespace::trimmed(pattern::past(t, b" "))
}

fn both_read(kind: u32, start: Option<Stamp>, stop: Option<Stamp>) -> Result<Question, Unread>
    ensures { result ≡ both_read kind start stop }
{
    let (Some(s), Some(e)) = (start, stop) else {
        return Err(Unread::Times);
    };
    Ok(Question {
        kind,
        start: s.units,
        stop: e.units,
        mark: s.mark,
    })
}

// What a line asks.
pub fn asked(line: &[u8]) -> Result<Question, Unread>
    ensures { result ≡ question_of line.now }
{
    let t = whitespace::trimmed(line);
    let Some(kind) = kind_of(word_of(t)) else {
        return Err(Unread::Kind);
    };
    let u = behind_word(t);
    let start = caption_stamp::read_time(word_of(u), kind);
    let stop = caption_stamp::read_time(behind_word(u), kind);
    both_read(kind, start, stop)
}
