// The bytes behind a head, part by part.
ghost use Rattle.std.specs.Prelude.{◌≡◌, ◌≤◌, length, take};
ghost use Rattle.reading.specs.Counts.{IsPrefixLen};

use std::io::Read;

// Reads n bytes, and the zero bytes after them up to a multiple of 8, and answers how many it put at the start of `buf`: fewer than n where the file ends, inside the zero bytes too, or `buf` does.
pub fn part<R: Read>(from: &mut R, buf: &mut [u8], n: u64) -> usize
    ensures { IsPrefixLen result buf.new }
{
    let m = within_bytes(buf, n as usize);
    let got = reading::read_full(from, &mut buf[..m]);
    let mut pad = padding();
    let k = within_bytes(&pad, (8 - m % 8) % 8);
    if reading::read_full(from, &mut pad[..k]) != k {
        return 0;
    }
    within_bytes(buf, got)
}

// n, but no more than the bytes of `x`.
fn within_bytes(x: &[u8], n: usize) -> usize
    ensures { IsPrefixLen result x.now }
{
    if n < x.len() {
        return n;
    }
    x.len()
}

// n, but no more than the floats of x.
pub fn within(x: &[f64], n: usize) -> usize
    ensures { (result ≤ length x.now) × (result ≡ length (take result x.now)) }
{
    if n < x.len() {
        return n;
    }
    x.len()
}

// n, but no more than the words of x.
pub fn within_words(x: &[u64], n: usize) -> usize
    ensures { IsPrefixLen result x.now }
{
    if n < x.len() {
        return n;
    }
    x.len()
}

// Room for what fills up a part.
fn padding() -> [u8; 8]
    ensures { 8 ≡ length result }
{
    [0; 8]
}

// Room for a file's first four words.
pub fn file_room() -> [u8; 32]
    ensures { 32 ≡ length result }
{
    [0; 32]
}

pub fn one_byte() -> [u8; 1]
    ensures { 1 ≡ length result }
{
    [0; 1]
}
