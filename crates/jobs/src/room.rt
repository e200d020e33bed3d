// Room for the parts of a job and for the buffers that it lends: all that the limits allow, and some to spare for jobs that are beyond them.
ghost use Rattle.std.specs.Prelude.{◌≡◌, length};

use numbers::limit::{POINTS, RECORDS, UNKNOWNS};

// The floats of the rooms: a matrix is N(N+1).
pub const MATRIX: usize = UNKNOWNS * (UNKNOWNS + 1) + 8;

pub const VECTOR: usize = UNKNOWNS + 16;

pub const MEMORY: usize = RECORDS + 8;

// The buffers of a run but for its rows, whose number is the program's to choose.
#[derive(Clone, Copy)]
pub struct Rooms {
    pub base: [f64; MATRIX],
    pub system: [f64; MATRIX],
    pub elimination: [f64; MATRIX],
    pub vector: [f64; VECTOR],
    pub memory: [f64; MEMORY],
}

// A sheet of six records too many.
pub fn sheet_room() -> [u8; 40 * (RECORDS + 6)]
    ensures { 10480 ≡ length result }
{
    [0; 40 * (RECORDS + 6)]
}

// 16 points too many.
pub fn points_room() -> [u8; 16 * (POINTS + 16)]
    ensures { 16640 ≡ length result }
{
    [0; 16 * (POINTS + 16)]
}

// A tolerance for each float of a vector.
pub fn tolerance_room() -> [u8; 8 * VECTOR]
    ensures { 512 ≡ length result }
{
    [0; 8 * VECTOR]
}

pub fn matrix() -> [f64; MATRIX]
    ensures { 2360 ≡ length result }
{
    [0.0; MATRIX]
}

pub fn vector_room() -> [f64; VECTOR]
    ensures { 64 ≡ length result }
{
    [0.0; VECTOR]
}

pub fn memory_room() -> [f64; MEMORY]
    ensures { 264 ≡ length result }
{
    [0.0; MEMORY]
}

// All of them, zeros.
pub fn zero_rooms() -> Rooms {
    let base = matrix();
    let system = matrix();
    let elimination = matrix();
    let vector = vector_room();
    let memory = memory_room();
    Rooms {
        base,
        system,
        elimination,
        vector,
        memory,
    }
}
