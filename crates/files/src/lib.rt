// Reading files and writing bytes, for the programs. What a file holds and what is written is the operating system's; the
// contracts speak of the counts.
#![tactic(auto)]

ghost use Rattle.std.specs.Prelude.{◌≡◌, ◌+◌, ◌<◌, ◌≤◌, drop, length, IfOk, IfSome};
ghost use Rattle.files.specs.Counts.{IsPrefixLen};
ghost use Rattle.files.specs.Filled.{Filled};

use std::fs::File;
use std::io;
use std::io::{Cursor, Read, Write};
use std::rt::Files;

// How many bytes of a file stand in its buffer, and whether it has more. (An Option could not say that a file with more fills
// the buffer.)
#[derive(Clone, Copy)]
pub struct Loaded {
    pub len: usize,
    pub more: bool,
}

// A path that is no text is no file's.
fn open<R: Files>(rt: &R, path: &[u8]) -> io::Result<R::File> {
    match str::from_utf8(path) {
        Ok(text) => File::open(rt, text),
        Err(_) => Err(io::Error::from(io::ErrorKind::InvalidInput)),
    }
}

// How many bytes were read, and the error of a read that failed after them. (A Result would lose the one or the other.)
#[derive(Clone, Copy)]
pub struct FullRead {
    pub len: usize,
    pub error: Option<io::Error>,
}

// Reads until the buffer is full, the file ends or a read fails: no range tells beforehand how many reads that takes.
pub fn read_full(file: &mut impl Read, buffer: &mut [u8]) -> FullRead
    ensures { IsPrefixLen result.len buffer.new }
{
    let mut len = 0;
    while len < buffer.len() {
        match file.read(&mut buffer[len..]) {
            Ok(0) => break,
            Ok(n) => len += n,
            Err(e) => {
                return FullRead {
                    len,
                    error: Some(e),
                };
            }
        }
    }
    FullRead { len, error: None }
}

// Reads a file into the buffer, and one further byte where the buffer is full. A file that can't be opened counts as
// empty, and a read that fails as the end of the file.
pub fn load(rt: &impl Files, path: &[u8], buffer: &mut [u8]) -> Loaded
    ensures { Filled result buffer.new }
{
    let Ok(mut file) = open(rt, path) else {
        return Loaded {
            len: 0,
            more: false,
        };
    };
    let len = read_full(&mut file, buffer).len;
    Loaded {
        len,
        more: len == buffer.len() && read_full(&mut file, &mut [0u8; 1]).len == 1,
    }
}

// Reads a file of at most max bytes into a buffer of one byte more or longer, and answers the length to lend: a file that
// is too long is lent with the one byte too many, for the library to refuse. The bytes from max on stay as they were. (Path,
// buffer and max are no struct, here and below: each file is lent a room of its own, once.)
pub fn load_most(rt: &impl Files, path: &[u8], buffer: &mut [u8], max: usize) -> usize
    requires { max < length buffer.old }
    ensures counted { IsPrefixLen result buffer.new }
    ensures most { result ≤ max + 1 }
    ensures kept { drop max buffer.new ≡ drop max buffer.old }
{
    let l = load(rt, path, &mut buffer[..max]);
    if l.more { max + 1 } else { l.len }
}

// Tells on standard error, in the system's words, why something failed: an error's text without its number, which comes
// after it in brackets.
fn fail(err: &impl Print, what: &[u8], e: &io::Error) {
    let mut to = Cursor::new([0u8; 288]);
    let _ = write!(to, "{e}");
    let n = (to.position() as usize).min(288);
    let text = str::from_utf8(&to.get_ref()[..n]).unwrap_or("");
    let words = match text.rsplit_once(" (os error ") {
        Some((words, _)) => words,
        None => text,
    };
    let _ = err.write_all(what);
    let _ = println!(err; ": {words}");
}

// Reads as load_most does, and fails where the file can't be opened, or be read to its end. A byte after a part that doesn't
// fill the buffer shows that a read before it failed, or that the file was cut short for a moment.
fn read_lent(rt: &impl Files, path: &[u8], buffer: &mut [u8], max: usize) -> io::Result<usize>
    requires { max < length buffer.old }
    ensures counted { IfOk result (λ len. IsPrefixLen len buffer.new) }
    ensures most { IfOk result (λ len. len ≤ max + 1) }
    ensures kept { drop max buffer.new ≡ drop max buffer.old }
{
    let mut file = open(rt, path)?;
    let part = read_full(&mut file, &mut buffer[..max]);
    if file.read(&mut [0u8; 1])? == 0 {
        return Ok(part.len);
    }
    if part.len < max {
        let cut_short = io::Error::from(io::ErrorKind::UnexpectedEof);
        return Err(part.error.unwrap_or(cut_short));
    }
    Ok(max + 1)
}

// Reads as load_most does. A file that can't be opened, or be read to its end, is none, and that is told on standard error in
// the system's words.
pub fn read_most(
    rt: &impl Files,
    err: &impl Print,
    path: &[u8],
    buffer: &mut [u8],
    max: usize,
) -> Option<usize>
    requires { max < length buffer.old }
    ensures counted { IfSome result (λ len. IsPrefixLen len buffer.new) }
    ensures most { IfSome result (λ len. len ≤ max + 1) }
    ensures kept { drop max buffer.new ≡ drop max buffer.old }
{
    match read_lent(rt, path, buffer, max) {
        Ok(len) => Some(len),
        Err(e) => {
            fail(err, path, &e);
            None
        }
    }
}

// Writes bytes to standard output. Where not all are taken, that is told on standard error in the system's words.
pub fn write(out: &impl Print, err: &impl Print, bytes: &[u8]) {
    if let Err(e) = out.write_all(bytes) {
        fail(err, b"standard output", &e);
    }
}
