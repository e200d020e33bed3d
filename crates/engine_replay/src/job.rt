// One job: its buffers are lent as the format says, the engine runs it, and its answer is held against the stored one.
use super::{buffers, tally};
use engine::Outcome;
use jobs::{Answer, Head, NOT_TOLD, Rooms};

// The floats that a job can lend.
const MATRIX: u64 = jobs::MATRIX as u64;

const VECTOR: u64 = jobs::VECTOR as u64;

const MEMORY: u64 = jobs::MEMORY as u64;

const ROW_FLOATS: u64 = buffers::ROW_FLOATS as u64;

// The first field in which an answer differs from the stored one; or none, or that the job cannot be read.
#[derive(Clone, Copy)]
pub enum Found {
    Nothing,
    Refusal,
    Place,
    Verdict,
    DcVerdict,
    Passes,
    Rows,
    End,
    Behind,
    Base,
    System,
    Elimination,
    Vector,
    Memory,
    RowFloats,
    Unreadable,
}

// An answer's numbers, as they are stored.
#[derive(Clone, Copy)]
pub struct Numbers {
    pub refusal: u64,
    pub place: u64,
    pub verdict: u64,
    pub dc: u64,
    pub passes: u64,
    pub rows: u64,
    pub end: f64,
    pub behind: u64,
}

// Whether nothing after this job can be read.
pub fn ends(f: Found) -> bool {
    match f {
        Found::Unreadable => true,
        _ => false,
    }
}

// Runs a job that was read whole, in rooms that hold all that it lends.
pub fn replayed(
    h: Head,
    a: Answer,
    sheet: &[u8],
    points: &[u8],
    floats: &[u8],
    counts: &mut [u64],
) -> Found {
    let mut rows = buffers::rows(buffers::ROWS);
    let run = jobs::run_job(buffers::lent_rooms(), &mut rows, h, sheet, points);
    let outcome = run.outcome;
    let rooms = run.rooms;
    let n = as_stored(outcome, h.transient);
    tally::ended(counts, h, n);
    tally::told(counts, a.behind);
    compared(rooms, &rows, n, a, floats)
}

// Whether every part was read to its end, and no lent length is beyond the room for it.
pub fn whole(h: Head, a: Answer, sheet: u64, points: u64, floats: u64) -> bool {
    let parts = (sheet == h.sheet) & (points == h.points) & (floats == a.floats);
    let matrices = (h.base <= MATRIX) & (h.system <= MATRIX) & (h.elimination <= MATRIX);
    let others = (h.vector <= VECTOR) & (h.memory <= MEMORY) & (h.rows <= ROW_FLOATS);
    parts & matrices & others
}

// The engine's answer as it is stored: DC has no other verdict beside its own.
fn as_stored(r: Outcome, transient: bool) -> Numbers {
    match r {
        Outcome::Refused(k, i) => Numbers {
            refusal: k as u64,
            place: i as u64,
            verdict: 0,
            dc: 0,
            passes: 0,
            rows: 0,
            end: 0.0,
            behind: 0,
        },
        Outcome::Ended(e) => Numbers {
            refusal: 0,
            place: 0,
            verdict: e.verdict.number() as u64,
            dc: if transient { e.dc.number() as u64 } else { 0 },
            passes: e.passes,
            rows: e.rows,
            end: e.end,
            behind: e.behind,
        },
    }
}

// The first field that differs: a number, or else a buffer.
fn compared(rooms: Rooms, rows: &[f64], n: Numbers, a: Answer, floats: &[u8]) -> Found {
    let f = number_found(n, a);
    if let Found::Nothing = f {
        return rooms_compared(rooms, rows, a, floats);
    }
    f
}

// The first buffer that differs.
fn rooms_compared(rooms: Rooms, rows: &[f64], a: Answer, floats: &[u8]) -> Found {
    let base = rooms.base;
    let system = rooms.system;
    let elimination = rooms.elimination;
    let vector = rooms.vector;
    let memory = rooms.memory;
    buffer_found(
        &base,
        &system,
        &elimination,
        &vector,
        &memory,
        rows,
        a,
        floats,
    )
}

// The first number that is not the stored one.
fn number_found(n: Numbers, a: Answer) -> Found {
    if n.refusal != a.refusal {
        return Found::Refusal;
    }
    if n.place != a.place {
        return Found::Place;
    }
    if n.verdict != a.verdict {
        return Found::Verdict;
    }
    if n.dc != a.dc {
        return Found::DcVerdict;
    }
    if n.passes != a.passes {
        return Found::Passes;
    }
    if n.rows != a.rows {
        return Found::Rows;
    }
    if !jobs::same(n.end, a.end) {
        return Found::End;
    }
    if (a.behind != NOT_TOLD) & (n.behind != a.behind) {
        return Found::Behind;
    }
    Found::Nothing
}

// The first buffer that does not hold the stored floats and, after them, what was lent. Of the elimination matrix what stands before is nobody's promise.
fn buffer_found(
    base: &[f64],
    system: &[f64],
    elimination: &[f64],
    vector: &[f64],
    memory: &[f64],
    rows: &[f64],
    a: Answer,
    floats: &[u8],
) -> Found {
    let b = a.base as usize;
    let s = a.system as usize;
    let v = a.vector as usize;
    let m = a.memory as usize;
    let s_at = jobs::after(0, b);
    let v_at = jobs::after(s_at, s);
    let m_at = jobs::after(v_at, v);
    let w_at = jobs::after(m_at, m);
    if !jobs::holds(base, buffers::BASE, floats, 0, b) {
        return Found::Base;
    }
    if !jobs::holds(system, buffers::SYSTEM, floats, s_at, s) {
        return Found::System;
    }
    if !jobs::kept(elimination, buffers::ELIMINATION, b) {
        return Found::Elimination;
    }
    if !jobs::holds(vector, buffers::VECTOR, floats, v_at, v) {
        return Found::Vector;
    }
    if !jobs::holds(memory, buffers::MEMORY, floats, m_at, m) {
        return Found::Memory;
    }
    if !jobs::holds(rows, buffers::ROWS, floats, w_at, a.row_floats as usize) {
        return Found::RowFloats;
    }
    Found::Nothing
}
