// Lines that end a block.
ghost use Rattle.std.specs.Prelude.{◌≡◌};
ghost use Rattle.spec_cue.specs.block_timing.Style.{blank_in};

// Whether a line ends a block of the kind.
pub fn is_blank_in(kind: u32, line: &[u8]) -> bool
    ensures { result ≡ blank_in kind line.now }
{
    match kind {
        1 => text::is_blank(line),
        2 => text::text_of(line).is_empty(),
        _ => false,
    }
}
