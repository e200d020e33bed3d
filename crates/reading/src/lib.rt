// Reading files: the program's arguments and the files that they name, and bytes up to a buffer's end. Nothing here allocates.
#![tactic(auto)]

ghost use Rattle.std.specs.Prelude.{◌≡◌, ◌≤◌, IfSome, IsSome, IsOk, IsUtf8, length, take};
ghost use Rattle.reading.specs.Counts.{IsPrefixLen};

use std::env::FillError;
use std::fmt::InlineText;
use std::fs::File;
use std::io;
use std::io::{Error, ErrorKind, Read};
use std::rt::{Env, Files};
use std::str::from_utf8;

// Room for a path, and for any argument that can be one.
pub const PATH: usize = 4096;

// Reads until buf is full, the input ends or a read fails, and returns how many bytes it put at the start of buf. A read that a signal interrupts has failed. On an empty buf it makes no call.
pub fn read_full<R: Read>(from: &mut R, buf: &mut [u8]) -> usize
    ensures { IsPrefixLen result buf.new }
{
    // kept: a count of bytes, since `read_exact` does not say how many came before the end
    let mut done = 0;
    while done < buf.len() {
        let n = read_some(from, &mut buf[done..]);
        if n == 0 {
            break;
        }
        done += n;
    }
    done
}

// The bytes that one read put at the start of buf: none where the input ends or the read fails.
fn read_some<R: Read>(from: &mut R, buf: &mut [u8]) -> usize
    ensures { result ≤ length buf.new }
{
    from.read(buf).unwrap_or(0)
}

// Puts argument i at the start of buf and returns its length: 0 where it is longer than buf, and none where there is no such argument.
pub fn argument<R: Env>(rt: &R, i: usize, buf: &mut [u8]) -> Option<usize>
    ensures { IfSome result (λ n. n ≤ length buf.new) }
{
    match rt.arg(i, buf) {
        Ok(n) => Some(n),
        Err(FillError::TooLong) => Some(0),
        Err(FillError::NotPresent) => None,
    }
}

// Opens the file that argument i names; or says on standard error why it cannot. An argument that is not there, or is too long for a path, names no file. No clause: whether there is such a file is the system's to say.
pub fn open_argument<R: Env + Files + Eprint>(rt: &R, i: usize) -> Option<R::File> {
    let mut path = [0; PATH];
    match argument(rt, i, &mut path) {
        Some(n) => open(rt, &path[..n]),
        None => open(rt, b""),
    }
}

// Opens the file for reading; or says on standard error why it cannot.
pub fn open<R: Files + Eprint>(rt: &R, name: &[u8]) -> Option<R::File>
    ensures { IsSome result → IsUtf8 name.now }
{
    match opened(rt, name) {
        Ok(file) => Some(file),
        Err(e) => {
            fail(rt, name, e);
            None
        }
    }
}

// Opens the file for reading. A name that is no text is refused, since the library opens no file by such a name; of another the system decides.
pub fn opened<R: Files>(rt: &R, name: &[u8]) -> io::Result<R::File>
    ensures { IsOk result → IsUtf8 name.now }
{
    let Ok(text) = from_utf8(name) else {
        return Err(Error::from(ErrorKind::InvalidFilename));
    };
    File::open(rt, text)
}

// Writes a line to standard error: what failed, as the caller names it, a colon and the system's words. No clause speaks of what is printed.
pub fn fail<R: Eprint>(rt: &R, what: &[u8], e: Error) {
    let all = InlineText::<128>::of(e);
    let said = words(all.as_str());
    let _ = match from_utf8(what) {
        Ok(text) => eprintln!(rt; "{text}: {said}"),
        Err(_) => eprintln!(rt; "{}: {said}", what.escape_ascii()),
    };
}

// The system's words in what an error prints: the library puts the error's number behind them.
pub fn words(printed: &str) -> &str
    ensures { result.now ≡ take (length result.now) printed.now }
{
    match printed.split_once(" (os error ") {
        Some((said, _)) => said,
        None => printed,
    }
}
