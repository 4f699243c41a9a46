// Files of a folder.
ghost use Rattle.std.specs.Prelude.{◌≡◌, ◌<◌, IfOk, length, take};
ghost use Rattle.std.specs.Io.{ReadsAtMost};
ghost use Rattle.std.specs.Io.KnownBytes.{Consumes, IsAtEnd};
ghost use Rattle.spec_base.specs.base.Put.{placed, placed_length};
ghost use Rattle.files_map.specs.Folder.{path_below, Held};
ghost use Rattle.files_map.specs.Taken.{DrainsToFront};
ghost use Rattle.streams.specs.Left.{Drains};

use std::io::Read;
use std::rt::Files;
use std::{fs, io};

// The bytes of a file, as many as a program looks at: one more than a sheet or a list may have.
#[derive(Clone, Copy)]
pub struct File {
    // Kept: (1) no heap: the memory is fixed.
    pub bytes: [u8; 65537],
    pub length: usize,
}

impl File {
    // The bytes that the file holds.
    pub fn held(&self) -> &[u8]
        ensures { result.now ≡ take self.now.length self.now.bytes }
    {
        base::front(&self.bytes, self.length)
    }
}

// The path of the file `name` in a folder, at the start of `path`, and its length; an empty folder is the current one. Where it does not fit,
// nothing and 0.
pub fn path_below(folder: &[u8], name: &[u8], path: &mut [u8]) -> usize
    ensures { (result ≡ placed_length (path_below folder.now name.now) path.old) × (path.new ≡ placed (path_below folder.now name.now) path.old) }
{
    if folder.is_empty() {
        return base::put(path, name);
    }
    if path.len().saturating_sub(folder.len()) <= name.len() {
        return 0;
    }
    let a = base::put_at(path, 0, folder);
    let b = base::put_at(path, a, b"/");
    base::put_at(path, b, name)
}

// Opens the file `name` in a folder for reading; none where it cannot be opened, where its path does not fit, or where that is not UTF-8, as
// std's paths are.
pub fn open_below<R: Files>(rt: &R, folder: &[u8], name: &[u8]) -> Option<R::File> {
    // Kept: (1) no heap: the memory is fixed.
    let mut path = [0u8; 4096];
    let k = path_below(folder, name, &mut path);
    if k == 0 {
        return None;
    }
    let text = str::from_utf8(base::front(&path, k)).ok()?;
    fs::open(rt, text).ok()
}

// Reads until `buf` is full or the input ends, and answers how many bytes it put at the start of `buf`. After an error the bytes that are
// gone from the input stand there too, but how many is not told.
pub fn read_full<R: Read>(from: &mut R, buf: &mut [u8]) -> io::Result<usize>
    ensures bound { ReadsAtMost result buf.new }
    ensures bytes { IfOk result (λ n. Consumes (R.remaining from.old) (R.remaining from.new) (take n buf.new)) }
    ensures end { IfOk result (λ n. n < length buf.new → IsAtEnd (R.remaining from.new)) }
    ensures front { DrainsToFront (R.remaining from.old) (R.remaining from.new) buf.new }
    ensures drains { Drains (R.remaining from.old) (R.remaining from.new) }
{
    let mut done = 0;
    while done < buf.len() {
        let n = from.read(&mut buf[done..])?;
        if n == 0 {
            break;
        }
        done += n;
    }
    Ok(done)
}

// The file `name` in a folder, empty where it cannot be opened. What it holds no contract can say.
pub fn load<R: Files>(rt: &R, folder: &[u8], name: &[u8]) -> io::Result<File>
    ensures { IfOk result (λ file. Held file.bytes file.length) }
{
    // Kept: (1) no heap: the memory is fixed.
    let mut read = [0u8; 65537];
    let mut bytes = [0u8; 65537];
    let Some(mut opened) = open_below(rt, folder, name) else {
        return Ok(File { bytes, length: 0 });
    };
    let n = read_full(&mut opened, &mut read)?;
    let length = base::put(&mut bytes, base::front(&read, n));
    Ok(File { bytes, length })
}
