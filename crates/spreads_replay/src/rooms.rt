// The buffers that a call of spreads lends: room for them, and what they hold before a call. They are longer than what any stored call lends, so that what stands behind is compared too.
ghost use Rattle.std.specs.Prelude.{◌≡◌, length};

use jobs::{lend, lend_words};

// The bits of each buffer's float 0 or word 0 before a call; every further one is one pattern up.
pub const BASE: u64 = 0x4000_0100_0000_0000;

pub const SYSTEM: u64 = 0x4000_0200_0000_0000;

pub const ELIMINATION: u64 = 0x4000_0300_0000_0000;

pub const MEMORY: u64 = 0x4000_0400_0000_0000;

pub const VECTORS: u64 = 0x4000_0500_0000_0000;

pub const NUMBERS: u64 = 0x5a5a_0000_0000_0000;

pub const PLACES: u64 = 0x5a5a_0001_0000_0000;

pub const PASSES: u64 = 0x5a5a_0002_0000_0000;

pub const COUNTS: u64 = 0x5a5a_0003_0000_0000;

pub const PLUS: u64 = 0x5a5a_0004_0000_0000;

pub const MINUS: u64 = 0x5a5a_0005_0000_0000;

// The most that a call can lend here: floats of the vectors, and words of each other result.
pub const VECTOR_FLOATS: usize = 2048;

pub const LIST: usize = 264;

// The rooms, with some to spare behind the most that can be lent.
const SPARE: usize = 8;

pub const VECTOR_ROOM: usize = VECTOR_FLOATS + SPARE;

pub const LIST_ROOM: usize = LIST + SPARE;

pub fn matrix(first: u64) -> [f64; jobs::MATRIX]
    ensures { 2360 ≡ length result }
{
    let mut x = jobs::matrix();
    lend(&mut x, first);
    x
}

pub fn memory(first: u64) -> [f64; jobs::MEMORY]
    ensures { 264 ≡ length result }
{
    let mut x = jobs::memory_room();
    lend(&mut x, first);
    x
}

pub fn vectors(first: u64) -> [f64; VECTOR_ROOM]
    ensures { 2056 ≡ length result }
{
    let mut x = vector_floats();
    lend(&mut x, first);
    x
}

pub fn list(first: u64) -> [u64; LIST_ROOM]
    ensures { 272 ≡ length result }
{
    let mut x = list_words();
    lend_words(&mut x, first);
    x
}

fn vector_floats() -> [f64; VECTOR_ROOM]
    ensures { 2056 ≡ length result }
{
    [0.0; VECTOR_ROOM]
}

fn list_words() -> [u64; LIST_ROOM]
    ensures { 272 ≡ length result }
{
    [0; LIST_ROOM]
}
