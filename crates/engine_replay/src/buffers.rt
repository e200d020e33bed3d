// The lent buffers: room for them, and what they hold before a call.
ghost use Rattle.std.specs.Prelude.{◌≡◌, length};

use jobs::{Rooms, lend};

// The bits of each buffer's float 0 before a call; every further float is one pattern up.
pub const BASE: u64 = 0x4000_0100_0000_0000;

pub const SYSTEM: u64 = 0x4000_0200_0000_0000;

pub const ELIMINATION: u64 = 0x4000_0300_0000_0000;

pub const VECTOR: u64 = 0x4000_0400_0000_0000;

pub const MEMORY: u64 = 0x4000_0500_0000_0000;

pub const ROWS: u64 = 0x4000_0600_0000_0000;

// The rows' floats at most.
pub const ROW_FLOATS: usize = 2048;

// The rooms as they are lent.
pub fn lent_rooms() -> Rooms {
    let base = matrix(BASE);
    let system = matrix(SYSTEM);
    let elimination = matrix(ELIMINATION);
    let vector = vector(VECTOR);
    let memory = memory(MEMORY);
    Rooms {
        base,
        system,
        elimination,
        vector,
        memory,
    }
}

// A matrix as it is lent.
fn matrix(first: u64) -> [f64; jobs::MATRIX]
    ensures { 2360 ≡ length result }
{
    let mut x = jobs::matrix();
    lend(&mut x, first);
    x
}

// The vector as it is lent.
fn vector(first: u64) -> [f64; jobs::VECTOR]
    ensures { 64 ≡ length result }
{
    let mut x = jobs::vector_room();
    lend(&mut x, first);
    x
}

// The memory as it is lent.
fn memory(first: u64) -> [f64; jobs::MEMORY]
    ensures { 264 ≡ length result }
{
    let mut x = jobs::memory_room();
    lend(&mut x, first);
    x
}

// The rows as they are lent.
pub fn rows(first: u64) -> [f64; ROW_FLOATS]
    ensures { 2048 ≡ length result }
{
    let mut x = rows_room();
    lend(&mut x, first);
    x
}

fn rows_room() -> [f64; ROW_FLOATS]
    ensures { 2048 ≡ length result }
{
    [0.0; ROW_FLOATS]
}
