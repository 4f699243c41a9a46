// The limits of document 01; specs/Limits has the same as definitions.

// Ticks a second in a frame sheet of the first layout.
pub const MOST_SHEET_TIMESCALE: u32 = 1000000;

// Frames of a sheet.
pub const MOST_FRAMES: u32 = 1048576;

// Work bytes that are enough for the check of every sheet.
pub const MOST_WORK: usize = 131072;

// Bytes and trims of a trim list, the places for its ranges, and the largest number in one.
pub const MOST_LIST_BYTES: usize = 65536;

pub const MOST_TRIMS: usize = 1024;

pub const MOST_PLACES: usize = 2048;

pub const MOST_FRAME: u32 = 4294967295;

// Ticks a second in conversions, sessions and sheets of the second layout, and the values that a lone conversion takes.
pub const MOST_TIMESCALE: u32 = 1000000000;

pub const MOST_UNITS: u64 = 68719476736;

pub const MOST_TICKS: u64 = 9007199254740992;

// Segments of a map.
pub const MOST_SEGMENTS: usize = 1024;

// Hours, minutes and seconds of a caption's time.
pub const MOST_HOURS: u32 = 9999;

pub const MOST_MINUTES: u32 = 59;

pub const MOST_SECONDS: u32 = 59;

// Bytes of a piece that is fed; bytes and places of the lent output and warnings; bytes fed altogether.
pub const MOST_PIECE: usize = 1024;

pub const LEAST_OUTPUT: usize = 32768;

pub const LEAST_PLACES: usize = 4096;

pub const MOST_TAKEN: u32 = 1073741824;

// Bytes of a line and of a block's lines, columns of an ASS format line, and bytes that a session has room to hold.
pub const MOST_LINE: usize = 4096;

pub const MOST_BLOCK: usize = 4096;

pub const MOST_COLUMNS: usize = 4096;

pub const MOST_HELD: usize = 8192;
