// The words of a head. Every head stands here as form 2 has it: word 1 is the number of its words. A head of form 1 has no such word, so that its words after the first stand
// one place further on than in the file.
ghost use Rattle.std.specs.Prelude.{◌≡◌, length};

use std::io::Read;

// The words of a head at most.
const MOST: u64 = 64;

// What became of reading a head: it is whole, the file ends inside it, or it has a number of words that no head has or a word that is not known here.
#[derive(Drop)]
pub enum Reading {
    Whole,
    Ends,
    Unknown,
}

// Room for a head of 64 words. What is not read stays 0.
pub fn head_room() -> [u8; 512]
    ensures { 512 ≡ length result }
{
    [0; 512]
}

// Word k of a head, and 0 past its end.
pub fn word(head: &[u8], k: usize) -> u64 {
    if 64 <= k {
        return 0;
    }
    num::u64_at(head, 8 * k)
}

// Word k of a head, and `absent` past its end: for words whose absence means another number than 0, as the size of a record will.
pub fn word_or(head: &[u8], k: usize, absent: u64) -> u64 {
    if word(head, 1) <= k as u64 {
        return absent;
    }
    word(head, k)
}

// The float that is word k of a head.
pub fn float(head: &[u8], k: usize) -> f64 {
    num::float_of(word(head, k))
}

// The bytes of a head as it stands in a file of this form.
pub fn bytes(head: &[u8], form: u64) -> u64 {
    let n = word(head, 1);
    if n < 2 {
        return 0;
    }
    if MOST < n {
        return 0;
    }
    if form == 1 {
        return 8 * (n - 1);
    }
    8 * n
}

// Reads a head of this form, that has `old` words in form 1 and of which `known` words are known here.
pub fn read_head<R: Read>(from: &mut R, form: u64, old: u8, known: u8, head: &mut [u8]) -> Reading
    requires { length head.old ≡ 512 }
{
    if read_first(from, head) != 8 {
        return Reading::Ends;
    }
    read_rest(from, form, old, known, head)
}

// Reads word 0 of a head, and answers how many bytes of it there are.
pub fn read_first<R: Read>(from: &mut R, head: &mut [u8]) -> usize
    requires { length head.old ≡ 512 }
{
    reading::read_full(from, &mut head[0..8])
}

// Reads what follows word 0 of a head.
pub fn read_rest<R: Read>(from: &mut R, form: u64, old: u8, known: u8, head: &mut [u8]) -> Reading
    requires { length head.old ≡ 512 }
{
    if !read_size(from, form, old, head) {
        return Reading::Ends;
    }
    let n = word(head, 1);
    if n < 2 {
        return Reading::Unknown;
    }
    if MOST < n {
        return Reading::Unknown;
    }
    let end = 8 * (n as usize);
    if reading::read_full(from, &mut head[16..end]) != end - 16 {
        return Reading::Ends;
    }
    if !zeros_from(head, known) {
        return Reading::Unknown;
    }
    Reading::Whole
}

// Word 1, the number of words: form 2 has it in the file.
fn read_size<R: Read>(from: &mut R, form: u64, old: u8, head: &mut [u8]) -> bool
    requires { length head.old ≡ 512 }
{
    if form == 1 {
        head[8] = old;
        return true;
    }
    reading::read_full(from, &mut head[8..16]) == 8
}

// Whether the words from `known` on are 0.
fn zeros_from(head: &[u8], known: u8) -> bool {
    for k in known..64 {
        if word(head, k as usize) != 0 {
            return false;
        }
    }
    true
}
