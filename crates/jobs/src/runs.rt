// A job, run by its numbers.
use super::job::Head;
use super::parts::within;
use super::room::Rooms;
use engine::{Input, Outcome};

// How a run ended, and its rooms as it left them.
#[derive(Drop)]
pub struct Run {
    pub outcome: Outcome,
    pub rooms: Rooms,
}

// Runs a job in the parts of these rooms that it lends: the floats that it names, up to all of a room.
pub fn run_job(rooms: Rooms, rows: &mut [f64], h: Head, sheet: &[u8], points: &[u8]) -> Run {
    let mut base = rooms.base;
    let mut system = rooms.system;
    let mut elimination = rooms.elimination;
    let mut vector = rooms.vector;
    let mut memory = rooms.memory;
    let b = within(&base, h.base as usize);
    let s = within(&system, h.system as usize);
    let e = within(&elimination, h.elimination as usize);
    let v = within(&vector, h.vector as usize);
    let m = within(&memory, h.memory as usize);
    let w = within(rows, h.rows as usize);
    let outcome = analysed(
        h,
        sheet,
        points,
        &mut base[..b],
        &mut system[..s],
        &mut elimination[..e],
        &mut vector[..v],
        &mut memory[..m],
        &mut rows[..w],
    );
    let left = Rooms {
        base,
        system,
        elimination,
        vector,
        memory,
    };
    Run {
        outcome,
        rooms: left,
    }
}

// The engine's answer to a job.
fn analysed(
    h: Head,
    sheet: &[u8],
    points: &[u8],
    base: &mut [f64],
    system: &mut [f64],
    elimination: &mut [f64],
    vector: &mut [f64],
    memory: &mut [f64],
    rows: &mut [f64],
) -> Outcome {
    let i = Input {
        sheet,
        points,
        nodes: h.nodes as usize,
        sources: h.sources as usize,
        options: h.options,
    };
    if h.transient {
        return engine::transient_analysis(i, base, system, elimination, vector, memory, rows);
    }
    engine::dc_operating_point(i, base, system, elimination, vector, memory)
}
