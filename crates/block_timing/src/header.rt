// WebVTT's first line.
ghost use Rattle.std.specs.Prelude.{◌≡◌};
ghost use Rattle.spec_text.specs.text.Line.{lines_of};
ghost use Rattle.spec_cue.specs.block_timing.Header.{parts_word, is_header, header_due};

// Whether what follows the word is nothing, a space or a tab.
fn parts_word(s: &[u8]) -> bool
    ensures { result ≡ parts_word s.now }
{
    matches!(s, [] | [b' ' | b'\t', ..])
}

// Whether a line, with its terminator and without a BOM, is a header.
pub fn is_header(line: &[u8]) -> bool
    ensures { result ≡ is_header line.now }
{
    let t = text::text_of(line);
    pattern::starts_with(t, b"WEBVTT") && parts_word(base::rest(t, 6))
}

// Whether a header is due: no line has ended, and the open block has no bytes.
pub fn header_due(kind: u32, n: u32, block: &[u8]) -> bool
    ensures { result ≡ header_due kind n (lines_of block.now) }
{
    kind == 2 && n == 0 && block.is_empty()
}
