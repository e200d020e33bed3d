// The door: each function is thin over a proved one, and its answer is that one's as numbers. The crate savrunte_c exports them to C under the same names; the header is include/savrunte.h.
// Every function is total. On a refusal every other field of the answer is 0, but for the place. The numbers of each answer stand beside its enum, as `told`.
#![tactic(auto)]

ghost use Rattle.std.specs.Prelude.{◌≡◌, true, false, [], ◌/◌, length};
ghost use Rattle.behind.specs.Behind.{behind_number};
ghost use Rattle.convergence.specs.Convergence.{convergence_of};
ghost use Rattle.machine.specs.State.{buffers_of};
ghost use Rattle.engine.specs.Engine.{call_of, run_of, Scratched};
ghost use Rattle.functions.specs.Exp.{exp_of};
ghost use Rattle.functions.specs.Ln.{ln_of};
ghost use Rattle.functions.specs.Sin.{sin_of};
ghost use Rattle.mean.specs.Mean.{mean_of};
ghost use Rattle.models.specs.Capacitor.{companion_of};
ghost use Rattle.models.specs.Diode.{linearized};
ghost use Rattle.models.specs.Vpwl.{pattern_at, pattern_first_at, points_from};
ghost use Rattle.judge.specs.Judge.{judge_of};
ghost use Rattle.solve.specs.Solve.{solve_of, solved_as};
ghost use Rattle.spreads.specs.Spreads.{results_of, scratch_of, batch_of, spreads_of, ScratchKept};
ghost use Rattle.sound.specs.Sound.{results_of as sound_results_of, call_of as sound_call_of, sound_of, ScratchKept as SoundScratchKept};
ghost use Rattle.savrunte.specs.Runs.{dc_answer, transient_answer, dc_of, dc_result, transient_of, transient_result};
ghost use Rattle.savrunte.specs.Spreads.{spreads_answer, door_of, door_result};
ghost use Rattle.savrunte.specs.Sound.{sound_answer, sound_door_of, sound_door_result};
ghost use Rattle.savrunte.specs.Answers.{sin_answer, convergence_answer, judge_answer, companion, diode_answer};

use convergence::Convergence;
use engine::{Input, Outcome};
use judge::Judged;
use options::Options;
use sound::Soundings;
use spreads::Spread;

#[repr(C)]
#[derive(Drop)]
pub struct SinAnswer {
    pub refusal: u64,
    pub value: f64,
}

#[repr(C)]
#[derive(Drop)]
pub struct ConvergenceAnswer {
    pub refusal: u64,
    pub state: u64,
}

#[repr(C)]
#[derive(Drop)]
pub struct JudgeAnswer {
    pub refusal: u64,
    pub row: u64,
}

#[repr(C)]
#[derive(Drop)]
pub struct CompanionAnswer {
    pub g: f64,
    pub i: f64,
}

#[repr(C)]
#[derive(Drop)]
pub struct DiodeAnswer {
    pub verdict: u64,
    pub g: f64,
    pub i: f64,
    pub memory: f64,
}

#[repr(C)]
#[derive(Drop)]
pub struct DcAnswer {
    pub refusal: u64,
    pub place: u64,
    pub verdict: u64,
    pub passes: u64,
    pub behind: u64,
}

#[repr(C)]
#[derive(Drop)]
pub struct TransientAnswer {
    pub refusal: u64,
    pub place: u64,
    pub verdict: u64,
    pub dc_verdict: u64,
    pub passes: u64,
    pub rows: u64,
    pub end: f64,
    pub behind: u64,
}

#[repr(C)]
#[derive(Clone, Copy)]
pub struct SpreadsAnswer {
    pub refusal: u64,
    pub settled: u64,
    pub smallest: f64,
    pub largest: f64,
    pub smallest_at: u64,
    pub largest_at: u64,
}

#[repr(C)]
#[derive(Clone, Copy)]
pub struct SoundAnswer {
    pub refusal: u64,
    pub settled: u64,
    pub smallest: f64,
    pub largest: f64,
    pub smallest_at: u64,
    pub largest_at: u64,
    pub sound: u64,
    pub sound_smallest: f64,
    pub sound_largest: f64,
    pub sound_smallest_at: u64,
    pub sound_largest_at: u64,
}

// The DC operating point of a sheet.
pub fn savrunte_dc(
    sheet: &[u8],
    points: &[u8],
    nodes: usize,
    sources: usize,
    options: Options,
    base: &mut [f64],
    system: &mut [f64],
    elimination: &mut [f64],
    vector: &mut [f64],
    memory: &mut [f64],
) -> DcAnswer
    ensures all { dc_of result (buffers_of base.new system.new vector.new memory.new [])
        ≡ dc_result (run_of (call_of options false nodes sources sheet.now points.now elimination.old
        (buffers_of base.old system.old vector.old memory.old []))) }
    ensures scratch { Scratched (call_of options false nodes sources sheet.now points.now elimination.old
        (buffers_of base.old system.old vector.old memory.old [])) elimination.new }
{
    let i = Input {
        sheet,
        points,
        nodes,
        sources,
        options,
    };
    let r = engine::dc_operating_point(i, base, system, elimination, vector, memory);
    dc_answer(r)
}

// The transient analysis of a sheet: DC first, then steps, whose rows go to `rows`.
pub fn savrunte_transient(
    sheet: &[u8],
    points: &[u8],
    nodes: usize,
    sources: usize,
    options: Options,
    base: &mut [f64],
    system: &mut [f64],
    elimination: &mut [f64],
    vector: &mut [f64],
    memory: &mut [f64],
    rows: &mut [f64],
) -> TransientAnswer
    ensures all { transient_of result (buffers_of base.new system.new vector.new memory.new rows.new)
        ≡ transient_result (run_of (call_of options true nodes sources sheet.now points.now elimination.old
        (buffers_of base.old system.old vector.old memory.old rows.old))) }
    ensures scratch { Scratched (call_of options true nodes sources sheet.now points.now elimination.old
        (buffers_of base.old system.old vector.old memory.old rows.old)) elimination.new }
{
    let i = Input {
        sheet,
        points,
        nodes,
        sources,
        options,
    };
    let r = engine::transient_analysis(i, base, system, elimination, vector, memory, rows);
    transient_answer(r)
}

// The first record whose diode is behind at this vector, with this memory: 0 for none, else 1 and its place.
pub fn savrunte_behind(sheet: &[u8], vector: &[f64], memory: &[f64], options: Options) -> u64
    ensures { result ≡ behind_number options sheet.now vector.now memory.now }
{
    behind::behind_number(options, sheet, vector, memory)
}

// All spreads in one call: every job run, and the report over them.
pub fn savrunte_spreads(
    sheets: &[u8],
    points: &[u8],
    jobs: usize,
    nodes: usize,
    sources: usize,
    unknown: usize,
    options: Options,
    base: &mut [f64],
    system: &mut [f64],
    elimination: &mut [f64],
    memory: &mut [f64],
    vectors: &mut [f64],
    numbers: &mut [u64],
    places: &mut [u64],
    passes: &mut [u64],
    counts: &mut [u64],
    plus: &mut [u64],
    minus: &mut [u64],
) -> SpreadsAnswer
    ensures all { door_of result (results_of vectors.new numbers.new places.new passes.new counts.new plus.new minus.new)
        ≡ door_result (spreads_of (batch_of options jobs nodes sources unknown sheets.now points.now
        (scratch_of base.old system.old elimination.old memory.old)
        (results_of vectors.old numbers.old places.old passes.old counts.old plus.old minus.old))) }
    ensures scratch { ScratchKept (batch_of options jobs nodes sources unknown sheets.now points.now
        (scratch_of base.old system.old elimination.old memory.old)
        (results_of vectors.old numbers.old places.old passes.old counts.old plus.old minus.old))
        (scratch_of base.new system.new elimination.new memory.new) }
{
    let r = spreads::spreads(
        sheets,
        points,
        jobs,
        nodes,
        sources,
        unknown,
        options,
        base,
        system,
        elimination,
        memory,
        vectors,
        numbers,
        places,
        passes,
        counts,
        plus,
        minus,
    );
    spreads_answer(r)
}

// All spreads in one call, with each job's cause where it is not sound, and a report over the sound ones beside that over the settled.
pub fn savrunte_sound_spreads(
    sheets: &[u8],
    points: &[u8],
    tolerances: &[f64],
    jobs: usize,
    nodes: usize,
    sources: usize,
    unknown: usize,
    options: Options,
    base: &mut [f64],
    system: &mut [f64],
    elimination: &mut [f64],
    memory: &mut [f64],
    vectors: &mut [f64],
    causes: &mut [u64],
    places: &mut [u64],
    passes: &mut [u64],
    counts: &mut [u64],
    plus: &mut [u64],
    minus: &mut [u64],
    sound_plus: &mut [u64],
    sound_minus: &mut [u64],
) -> SoundAnswer
    ensures all { sound_door_of result (sound_results_of vectors.new causes.new places.new passes.new counts.new plus.new minus.new sound_plus.new sound_minus.new)
        ≡ sound_door_result (sound_of (sound_call_of options jobs nodes sources unknown sheets.now points.now tolerances.now
        (scratch_of base.old system.old elimination.old memory.old)
        (sound_results_of vectors.old causes.old places.old passes.old counts.old plus.old minus.old sound_plus.old sound_minus.old))) }
    ensures scratch { SoundScratchKept (sound_call_of options jobs nodes sources unknown sheets.now points.now tolerances.now
        (scratch_of base.old system.old elimination.old memory.old)
        (sound_results_of vectors.old causes.old places.old passes.old counts.old plus.old minus.old sound_plus.old sound_minus.old))
        (scratch_of base.new system.new elimination.new memory.new) }
{
    let r = sound::sound_spreads(
        sheets,
        points,
        tolerances,
        jobs,
        nodes,
        sources,
        unknown,
        options,
        base,
        system,
        elimination,
        memory,
        vectors,
        causes,
        places,
        passes,
        counts,
        plus,
        minus,
        sound_plus,
        sound_minus,
    );
    sound_answer(r)
}

pub fn savrunte_mean(plus: &[u64], minus: &[u64], count: u64) -> f64
    ensures { result ≡ mean_of plus.now minus.now count }
{
    mean::mean(plus, minus, count)
}

pub fn savrunte_exp(x: f64) -> f64
    ensures { result ≡ exp_of x }
{
    functions::exp(x)
}

pub fn savrunte_ln(x: f64) -> f64
    ensures { result ≡ ln_of x }
{
    functions::ln(x)
}

pub fn savrunte_sin(x: f64) -> SinAnswer
    ensures { result ≡ sin_answer (sin_of x) }
{
    let s = functions::sin(x);
    match s {
        Some(y) => SinAnswer {
            refusal: 0,
            value: y,
        },
        None => SinAnswer {
            refusal: numbers::refusal::ARGUMENT as u64,
            value: 0.0,
        },
    }
}

pub fn savrunte_convergence(
    x: &[f64],
    y: &[f64],
    nodes: usize,
    options: Options,
) -> ConvergenceAnswer
    ensures { result ≡ convergence_answer (convergence_of x.now y.now nodes options) }
{
    let c = convergence::convergence_check(x, y, nodes, options);
    match c {
        Convergence::Yes => ConvergenceAnswer {
            refusal: 0,
            state: 0,
        },
        Convergence::No => ConvergenceAnswer {
            refusal: 0,
            state: 1,
        },
        Convergence::Error => ConvergenceAnswer {
            refusal: 0,
            state: 2,
        },
        Convergence::Refused => ConvergenceAnswer {
            refusal: numbers::refusal::ROOM as u64,
            state: 0,
        },
    }
}

pub fn savrunte_pattern(points: &[u8], t_delay: f64, repeat: f64, t: f64) -> f64
    ensures { result ≡ pattern_at (points_from points.now 0 (length points.now / 16)) t_delay repeat t }
{
    let count = points.len() / 16;
    models::vpwl::evaluate(points, 0, count, t_delay, repeat, t)
}

pub fn savrunte_pattern_first(points: &[u8], t_delay: f64, repeat: f64, t: f64) -> f64
    ensures { result ≡ pattern_first_at (points_from points.now 0 (length points.now / 16)) t_delay repeat t }
{
    let count = points.len() / 16;
    models::vpwl::evaluate_first(points, 0, count, t_delay, repeat, t)
}

pub fn savrunte_capacitor(value: f64, v: f64, step: f64) -> CompanionAnswer
    ensures { result ≡ companion (companion_of value v step) }
{
    let c = models::capacitor::linearize(value, v, step);
    CompanionAnswer { g: c.g, i: c.i }
}

pub fn savrunte_diode(i_sat: f64, tdegc: f64, v: f64, memory: f64, options: Options) -> DiodeAnswer
    ensures { result ≡ diode_answer memory (linearized options i_sat tdegc v memory) }
{
    let d = models::diode::linearize(options, i_sat, tdegc, v, memory);
    match d {
        Some(m) => DiodeAnswer {
            verdict: 0,
            g: m.g,
            i: m.i,
            memory: m.memory,
        },
        None => DiodeAnswer {
            verdict: numbers::verdict::DIODE_CURRENT as u64,
            g: 0.0,
            i: 0.0,
            memory: memory,
        },
    }
}

pub fn savrunte_solve(matrix: &mut [f64], vector: &mut [f64], rows: usize) -> u64
    ensures { solved_as result matrix.new vector.new ≡ solve_of rows matrix.old vector.old }
{
    match solve::solve(matrix, vector, rows) {
        Ok(()) => 0,
        Err(refusal) => refusal.number() as u64,
    }
}

pub fn savrunte_judge(
    system: &[f64],
    vector: &[f64],
    tolerances: &[f64],
    rows: usize,
) -> JudgeAnswer
    ensures { result ≡ judge_answer rows (judge_of rows system.now vector.now tolerances.now) }
{
    match judge::judge(system, vector, tolerances, rows) {
        Ok(Judged::Accepted) => JudgeAnswer {
            refusal: 0,
            row: rows as u64,
        },
        Ok(Judged::Rejected(i)) => JudgeAnswer {
            refusal: 0,
            row: i as u64,
        },
        Err(k) => JudgeAnswer {
            refusal: k.number() as u64,
            row: 0,
        },
    }
}

// Of a transient's numbers those that a DC run has.
fn dc_answer(r: Outcome) -> DcAnswer
    ensures { result ≡ dc_answer r }
{
    let t = transient_answer(r);
    DcAnswer {
        refusal: t.refusal,
        place: t.place,
        verdict: t.verdict,
        passes: t.passes,
        behind: t.behind,
    }
}

fn transient_answer(r: Outcome) -> TransientAnswer
    ensures { result ≡ transient_answer r }
{
    match r {
        Outcome::Refused(k, i) => TransientAnswer {
            refusal: k as u64,
            place: i as u64,
            verdict: 0,
            dc_verdict: 0,
            passes: 0,
            rows: 0,
            end: 0.0,
            behind: 0,
        },
        Outcome::Ended(e) => TransientAnswer {
            refusal: 0,
            place: 0,
            verdict: e.verdict.number() as u64,
            dc_verdict: e.dc.number() as u64,
            passes: e.passes,
            rows: e.rows,
            end: e.end,
            behind: e.behind,
        },
    }
}

fn spreads_answer(r: Spread) -> SpreadsAnswer
    ensures { result ≡ spreads_answer r }
{
    match r {
        Spread::Refused(k) => SpreadsAnswer {
            refusal: k as u64,
            settled: 0,
            smallest: 0.0,
            largest: 0.0,
            smallest_at: 0,
            largest_at: 0,
        },
        Spread::Done(e) => SpreadsAnswer {
            refusal: 0,
            settled: e.settled,
            smallest: e.smallest,
            largest: e.largest,
            smallest_at: e.smallest_at,
            largest_at: e.largest_at,
        },
    }
}

fn sound_answer(r: Soundings) -> SoundAnswer
    ensures { result ≡ sound_answer r }
{
    match r {
        Soundings::Refused(k) => SoundAnswer {
            refusal: k as u64,
            settled: 0,
            smallest: 0.0,
            largest: 0.0,
            smallest_at: 0,
            largest_at: 0,
            sound: 0,
            sound_smallest: 0.0,
            sound_largest: 0.0,
            sound_smallest_at: 0,
            sound_largest_at: 0,
        },
        Soundings::Done(e) => {
            let s = e.settled;
            let t = e.sound;
            SoundAnswer {
                refusal: 0,
                settled: s.settled,
                smallest: s.smallest,
                largest: s.largest,
                smallest_at: s.smallest_at,
                largest_at: s.largest_at,
                sound: t.settled,
                sound_smallest: t.smallest,
                sound_largest: t.largest,
                sound_smallest_at: t.smallest_at,
                sound_largest_at: t.largest_at,
            }
        }
    }
}
