// A session taken up, called and parked again.
ghost use Rattle.std.specs.Prelude.{◌≡◌, ◌≤◌, length};
ghost use Rattle.spec_session.specs.session.SessionCalls.{feed_call, finish_call};
ghost use Rattle.spec_parking.specs.parking.Head.{head_in};
ghost use Rattle.spec_parking.specs.session_bytes.ByteCalls.{refuses, told_in, kept_next, Called};
ghost use Rattle.spec_parking.specs.session_bytes.Text.{feed_number, feed_text, TakesText, kept_text};

use session_state::{Head, Session};
use spec_parking::session_bytes::{TextIn, Told};

// Whether the number refuses a call: 15 to 18, or 27.
#[tactic(auto, unfolding(spec_parking::specs::session_bytes::ByteCalls::refuses))]
fn refuses_call(number: u32) -> bool
    ensures { result ≡ refuses number }
{
    matches!(number, 15..=18 | 27)
}

// What a place holds afterwards, where `before` stood: the value, or the same where the call is refused.
#[tactic(auto, unfolding(spec_parking::specs::session_bytes::ByteCalls::told_in))]
pub fn told_in(number: u32, value: u64, before: u64) -> u64
    ensures { result ≡ told_in number value before }
{
    if refuses_call(number) { before } else { value }
}

fn refused(number: u32) -> Told
    ensures { result ≡ record { number = number; written = 0; warned = 0 } }
{
    Told {
        number,
        written: 0,
        warned: 0,
    }
}

// Stores the session that a call returned, where something was fed and the number does not refuse the call. It is stored as it is: one that 17 refuses, which only forged bytes lead to, is told by the next call.
fn keep_next(number: u32, nothing: bool, next: Session, bytes: &mut [u8])
    ensures { bytes.new ≡ kept_next number nothing next bytes.old }
{
    if !nothing && !refuses_call(number) {
        let _ = parking::keep(next, bytes);
    }
}

// The held bytes and the piece behind them, at the start of `room`.
fn text_in(bytes: &[u8], piece: &[u8], room: &mut [u8]) -> TextIn
    requires { 9216 ≤ length room.old }
    ensures { TakesText bytes.now piece.now result room.new }
{
    let up = parking::take_in(bytes, room);
    let head = up.head;
    if up.number != 0 {
        return TextIn {
            number: up.number,
            length: 0,
            head,
        };
    }
    let n = head.held_len;
    if base::MOST_HELD < n {
        return TextIn {
            number: 17,
            length: 0,
            head,
        };
    }
    let length = base::put_at(room, n, base::front(piece, base::MOST_PIECE));
    TextIn {
        number: 0,
        length,
        head,
    }
}

// Stores the session of these numbers and held bytes in the place of one that held `old` bytes, where something was fed and the number does not refuse the call.
fn keep_text(number: u32, nothing: bool, head: Head, held: &[u8], old: usize, bytes: &mut [u8])
    ensures { bytes.new ≡ kept_text number nothing head held.now old bytes.old }
{
    if !nothing && !refuses_call(number) {
        parking::restore(head, held, old, bytes);
    }
}

// A feed of the text that `text_in` made.
fn feed_text(
    bytes: &mut [u8],
    head: Head,
    map: &[u64],
    piece: &[u8],
    text: &[u8],
    out: &mut [u8],
    warnings: &mut [u64],
) -> Told
    requires { (feed_number bytes.old ≡ 0) × (head ≡ head_in bytes.old) × (text.now ≡ feed_text bytes.old piece.now) }
    ensures { Called (feed_call map.now piece.now (length out.old) (length warnings.old)) result bytes.old bytes.new out.old out.new warnings.old warnings.new }
{
    let bad = session::lengths_bad(head.taken, piece.len(), out.len(), warnings.len());
    let fed = session_text::take_text(head, map, text, bad, out, warnings);
    keep_text(
        fed.number,
        piece.len() == 0,
        fed.head,
        base::rest(text, fed.begin),
        head.held_len,
        bytes,
    );
    Told {
        number: fed.number,
        written: fed.written,
        warned: fed.warned,
    }
}

// A piece of the text. An empty one leaves the bytes as they are.
pub fn feed(
    bytes: &mut [u8],
    map: &[u64],
    piece: &[u8],
    out: &mut [u8],
    warnings: &mut [u64],
) -> Told
    ensures { Called (feed_call map.now piece.now (length out.old) (length warnings.old)) result bytes.old bytes.new out.old out.new warnings.old warnings.new }
{
    // Kept: (1) no heap: the memory is fixed.
    let mut room = [0u8; 9216];
    let up = text_in(bytes, piece, &mut room);
    if up.number != 0 {
        return refused(up.number);
    }
    feed_text(
        bytes,
        up.head,
        map,
        piece,
        base::front(&room, up.length),
        out,
        warnings,
    )
}

// What is held as a last line; the session ends.
pub fn finish(bytes: &mut [u8], map: &[u64], out: &mut [u8], warnings: &mut [u64]) -> Told
    ensures { Called (finish_call map.now (length out.old) (length warnings.old)) result bytes.old bytes.new out.old out.new warnings.old warnings.new }
{
    let up = parking::take_up(bytes);
    if up.number != 0 {
        return refused(up.number);
    }
    let fed = session::finish(up.session, map, out, warnings);
    keep_next(fed.number, false, fed.session, bytes);
    Told {
        number: fed.number,
        written: fed.written,
        warned: fed.warned,
    }
}
