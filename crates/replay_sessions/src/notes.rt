// Warnings as they are printed.

// A line `warning KIND LINE`, at a place.
fn note(notes: &mut [u8], at: usize, kind: u64, line: u64) -> usize {
    // Kept: (1) no heap: the memory is fixed.
    let mut row = [0u8; 64];
    let n = number_lines::line(&mut row, b"warning", &[kind, line]);
    base::put_at(notes, at, base::front(&row, n))
}

// The warnings of a call, of which `count` places are filled.
pub fn note_all(notes: &mut [u8], start: usize, places: &[u64], count: usize) -> usize {
    let mut at = start;
    for warning in base::front(places, count).chunks_exact(2) {
        at = note(
            notes,
            at,
            base::get_or(warning, 0, 0),
            base::get_or(warning, 1, 0),
        );
    }
    at
}
