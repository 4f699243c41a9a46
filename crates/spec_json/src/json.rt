// Types that the definitions of json name.

// Up to four bytes.
#[derive(Clone, Copy)]
pub struct Piece {
    pub bytes: [u8; 4],
    pub len: usize,
}

// An item of a row: the width of what stands before its value, of the value, and of all with the white space behind it; the last two 0: none.
#[derive(Clone, Copy)]
pub struct Item {
    pub lead: usize,
    pub width: usize,
    pub whole: usize,
}
