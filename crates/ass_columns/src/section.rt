// Lines that name a section.
ghost use Rattle.std.specs.Prelude.{◌≡◌};
ghost use Rattle.spec_text.specs.pattern.Find.{equals};
ghost use Rattle.spec_ass.specs.ass_columns.Section.{events_name, bracketed, inside, in_section};

use spec_ass::ass_columns::Columns;

// Whether a trimmed line goes from `[` to `]`.
pub fn is_section(t: &[u8]) -> bool
    ensures { result ≡ bracketed t.now }
{
    matches!(t, [b'[', .., b']'])
}

// Whether the section that it names is Events.
pub fn names_events(t: &[u8]) -> bool
    ensures { result ≡ equals events_name (inside t.now) }
{
    match t {
        [_, name @ .., _] => pattern::equals(name, b"Events"),
        _ => false,
    }
}

// The columns stay from section to section.
pub fn in_section(events: bool, columns: Columns) -> Columns
    ensures { result ≡ in_section events columns }
{
    Columns { events, ..columns }
}
