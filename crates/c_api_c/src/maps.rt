// Maps, for callers from C: of a sheet and a trim list, and as the JSON texts that the Rust cutter stores (request 2.1).
ghost use Rattle.std.specs.Prelude.{◌≡◌, length};
ghost use Rattle.spec_base.specs.base.Put.{put};
ghost use Rattle.spec_base.specs.base.Refusal.{left_in};
ghost use Rattle.spec_map.specs.segment.Segment.{segments_of, flat_of};
ghost use Rattle.spec_map.specs.segmap.Map.{map_of, map_work};
ghost use Rattle.spec_map_json.specs.map_json_write.Text.{map_text};
ghost use Rattle.spec_map_json.specs.map_json_write.Reads.{map_said};
ghost use Rattle.spec_map_json.specs.map_json_write.MapWritten.{write_number, when_done};
ghost use Rattle.spec_map_json.specs.map_json_read.MapRead.{read_number};

// 0, or 2 to 14, 16, 20, 25 or 26. With 0 the map stands at the start of `map`, six numbers to a segment, and the two places tell the sheet's timescale and
// how many segments there are; else these stay as they were. The work bytes are for the sheet's check.
#[unsafe(no_mangle)]
pub extern "C" fn retimer_map(
    sheet: &[u8],
    list: &[u8],
    direction: u32,
    work: &mut [u8],
    map: &mut [u64],
    timescale: &mut u32,
    count: &mut u64,
) -> u32
    ensures value { result ≡ (map_of sheet.now list.now direction (length map.old) (length work.old)).number }
    ensures work_after { work.new ≡ map_work sheet.now direction (length map.old) work.old }
    ensures map_after { map.new ≡ put (flat_of (map_of sheet.now list.now direction (length map.old) (length work.old)).segments) map.old }
    ensures timescale_after { timescale.new ≡ left_in result (map_of sheet.now list.now direction (length map.old) (length work.old)).timescale timescale.old }
    ensures count_after { count.new ≡ left_in result (map_of sheet.now list.now direction (length map.old) (length work.old)).count count.old }
{
    c_api::retimer_map(sheet, list, direction, work, map, timescale, count)
}

// 0, 15, 16 or 20. With 0 the JSON text stands at the start of `text`, and `written` is its length; else both stay as they were.
#[unsafe(no_mangle)]
pub extern "C" fn retimer_map_write(
    map: &[u64],
    timescale: u32,
    rate_num: u32,
    rate_den: u32,
    path: &[u8],
    frames: u32,
    text: &mut [u8],
    written: &mut u64,
) -> u32
    ensures value { result ≡ write_number map.now timescale path.now (map_text timescale rate_num rate_den path.now frames (segments_of map.now)) (length text.old) }
    ensures text_after { text.new ≡ put (when_done result (map_text timescale rate_num rate_den path.now frames (segments_of map.now))) text.old }
    ensures written_after { written.new ≡ left_in result (length (map_text timescale rate_num rate_den path.now frames (segments_of map.now))) written.old }
{
    c_api::retimer_map_write(
        map, timescale, rate_num, rate_den, path, frames, text, written,
    )
}

// 0, 23, 15 or 16. With 0 the map's numbers stand at the start of `map`, six to a segment, and the input path at the start of `path`, and the six places tell
// the timescale, the frame rate, the frame count and how many numbers and bytes were written; else all stay as they were.
#[unsafe(no_mangle)]
pub extern "C" fn retimer_map_read(
    text: &[u8],
    map: &mut [u64],
    path: &mut [u8],
    timescale: &mut u32,
    rate_num: &mut u32,
    rate_den: &mut u32,
    frames: &mut u32,
    numbers: &mut u64,
    path_length: &mut u64,
) -> u32
    ensures value { result ≡ read_number text.now (length map.old) (length path.old) }
    ensures map_after { map.new ≡ put (when_done result (flat_of (map_said text.now).segments)) map.old }
    ensures path_after { path.new ≡ put (when_done result (map_said text.now).path) path.old }
    ensures timescale_after { timescale.new ≡ left_in result (map_said text.now).timescale timescale.old }
    ensures rate_num_after { rate_num.new ≡ left_in result (map_said text.now).rate_num rate_num.old }
    ensures rate_den_after { rate_den.new ≡ left_in result (map_said text.now).rate_den rate_den.old }
    ensures frames_after { frames.new ≡ left_in result (map_said text.now).frames frames.old }
    ensures numbers_after { numbers.new ≡ left_in result (length (flat_of (map_said text.now).segments)) numbers.old }
    ensures path_length_after { path_length.new ≡ left_in result (length (map_said text.now).path) path_length.old }
{
    c_api::retimer_map_read(
        text,
        map,
        path,
        timescale,
        rate_num,
        rate_den,
        frames,
        numbers,
        path_length,
    )
}
