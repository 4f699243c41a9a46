// Captions, for callers from C: a session that the caller keeps as its 9,216 bytes between two calls, a whole text in one call, and the captions of a text as rows.
ghost use Rattle.std.specs.Prelude.{◌≡◌, length};
ghost use Rattle.spec_base.specs.base.Put.{put};
ghost use Rattle.spec_session.specs.session.SessionCalls.{feed_call, finish_call};
ghost use Rattle.spec_parking.specs.session_bytes.ByteCalls.{open_number, open_bytes, call_number, bytes_after, text_out, places_in, told_in};
ghost use Rattle.spec_runs.specs.one_call.Text.{Retimed};
ghost use Rattle.spec_rows.specs.caption_rows.Cues.{CuesRead};

// 0, 15 or 16; 16 too where fewer than 9,216 bytes are lent. With 0 the session stands at the start of `session`; else all stays as it was.
#[unsafe(no_mangle)]
pub extern "C" fn retimer_open(kind: u32, timescale: u32, map: &[u64], session: &mut [u8]) -> u32
    ensures value { result ≡ open_number kind timescale map.now (length session.old) }
    ensures session_after { session.new ≡ open_bytes kind timescale map.now session.old }
{
    c_api::retimer_open(kind, timescale, map, session)
}

// A piece of the text: 27, 17, 18, 15 or 16, and all stays as it was; else 0, 19 to 22 or 24, and the two places tell how much was written to `out` and `warnings`.
#[unsafe(no_mangle)]
pub extern "C" fn retimer_feed(
    session: &mut [u8],
    map: &[u64],
    piece: &[u8],
    out: &mut [u8],
    warnings: &mut [u64],
    written: &mut u64,
    warned: &mut u64,
) -> u32
    ensures value { result ≡ call_number session.old (feed_call map.now piece.now (length out.old) (length warnings.old)) }
    ensures session_after { session.new ≡ bytes_after session.old (feed_call map.now piece.now (length out.old) (length warnings.old)) }
    ensures out_after { out.new ≡ put (text_out session.old (feed_call map.now piece.now (length out.old) (length warnings.old))) out.old }
    ensures warnings_after { warnings.new ≡ put (places_in session.old (feed_call map.now piece.now (length out.old) (length warnings.old))) warnings.old }
    ensures written_after { written.new ≡ told_in result (length (text_out session.old (feed_call map.now piece.now (length out.old) (length warnings.old)))) written.old }
    ensures warned_after { warned.new ≡ told_in result (length (places_in session.old (feed_call map.now piece.now (length out.old) (length warnings.old)))) warned.old }
{
    c_api::retimer_feed(session, map, piece, out, warnings, written, warned)
}

// The end of the text, with the same numbers.
#[unsafe(no_mangle)]
pub extern "C" fn retimer_finish(
    session: &mut [u8],
    map: &[u64],
    out: &mut [u8],
    warnings: &mut [u64],
    written: &mut u64,
    warned: &mut u64,
) -> u32
    ensures value { result ≡ call_number session.old (finish_call map.now (length out.old) (length warnings.old)) }
    ensures session_after { session.new ≡ bytes_after session.old (finish_call map.now (length out.old) (length warnings.old)) }
    ensures out_after { out.new ≡ put (text_out session.old (finish_call map.now (length out.old) (length warnings.old))) out.old }
    ensures warnings_after { warnings.new ≡ put (places_in session.old (finish_call map.now (length out.old) (length warnings.old))) warnings.old }
    ensures written_after { written.new ≡ told_in result (length (text_out session.old (finish_call map.now (length out.old) (length warnings.old)))) written.old }
    ensures warned_after { warned.new ≡ told_in result (length (places_in session.old (finish_call map.now (length out.old) (length warnings.old)))) warned.old }
{
    c_api::retimer_finish(session, map, out, warnings, written, warned)
}

// 15 for the timescale or the map; 16 for the kind, a text above 2^30 bytes, or too little lent: three bytes of output for a byte of text and 32,768 more, a place for
// three bytes and 4,096 more, seven told numbers. Refused, nothing is written. Else the text's number, and output, warnings and told numbers are the plain reader's:
// bytes written, numbers for warnings, captions shifted, clipped, dropped and passed, bytes taken.
#[unsafe(no_mangle)]
pub extern "C" fn retimer_text(
    kind: u32,
    timescale: u32,
    map: &[u64],
    text: &[u8],
    out: &mut [u8],
    warnings: &mut [u64],
    told: &mut [u64],
) -> u32
    ensures { Retimed kind timescale map.now text.now out.old out.new warnings.old warnings.new told.old told.new result }
{
    c_api::retimer_text(kind, timescale, map, text, out, warnings, told)
}

// 16 for the kind, a text above 2^30 bytes, fewer than two told places or fewer than six places for each caption; refused, nothing is written. Else the text's number,
// with six numbers for each caption before the fault, in the text's order: line, 0 or the warning 1 or 2 with which it passes, start, end, where its words stand and
// how many bytes they are; and told how many captions there are and the line of the fault, or 0.
#[unsafe(no_mangle)]
pub extern "C" fn retimer_cues(kind: u32, text: &[u8], rows: &mut [u64], told: &mut [u64]) -> u32
    ensures { CuesRead kind text.now rows.old rows.new told.old told.new result }
{
    c_api::retimer_cues(kind, text, rows, told)
}
