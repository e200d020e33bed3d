// The C door: each function of the crate savrunte for C, under its own name and with its clauses. The header is include/savrunte.h; `rt lib` here makes the archive.
#![tactic(auto)]

ghost use Rattle.std.specs.Prelude.{◌≡◌, true, false, [], ◌/◌, length};
ghost use Rattle.behind.specs.Behind.{behind_number};
ghost use Rattle.convergence.specs.Convergence.{convergence_of};
ghost use Rattle.machine.specs.State.{buffers_of};
ghost use Rattle.engine.specs.Engine.{call_of, run_of, Scratched};
ghost use Rattle.functions.specs.Exp.{exp_of};
ghost use Rattle.functions.specs.Ln.{ln_of};
ghost use Rattle.functions.specs.Sin.{sin_of};
ghost use Rattle.mean.specs.Mean.{mean_of};
ghost use Rattle.models.specs.Capacitor.{companion_of};
ghost use Rattle.models.specs.Diode.{linearized};
ghost use Rattle.models.specs.Vpwl.{pattern_at, pattern_first_at, points_from};
ghost use Rattle.judge.specs.Judge.{judge_of};
ghost use Rattle.solve.specs.Solve.{solve_of, solved_as};
ghost use Rattle.spreads.specs.Spreads.{results_of, scratch_of, batch_of, spreads_of, ScratchKept};
ghost use Rattle.sound.specs.Sound.{results_of as sound_results_of, call_of as sound_call_of, sound_of, ScratchKept as SoundScratchKept};
ghost use Rattle.savrunte.specs.Runs.{dc_of, dc_result, transient_of, transient_result};
ghost use Rattle.savrunte.specs.Spreads.{door_of, door_result};
ghost use Rattle.savrunte.specs.Sound.{sound_door_of, sound_door_result};
ghost use Rattle.savrunte.specs.Answers.{sin_answer, convergence_answer, judge_answer, companion, diode_answer};

use options::Options;
use savrunte::{
    CompanionAnswer, ConvergenceAnswer, DcAnswer, DiodeAnswer, JudgeAnswer, SinAnswer, SoundAnswer,
    SpreadsAnswer, TransientAnswer,
};

// The DC operating point of a sheet.
#[unsafe(no_mangle)]
pub extern "C" fn savrunte_dc(
    sheet: &[u8],
    points: &[u8],
    nodes: usize,
    sources: usize,
    options: Options,
    base: &mut [f64],
    system: &mut [f64],
    elimination: &mut [f64],
    vector: &mut [f64],
    memory: &mut [f64],
) -> DcAnswer
    ensures all { dc_of result (buffers_of base.new system.new vector.new memory.new [])
        ≡ dc_result (run_of (call_of options false nodes sources sheet.now points.now elimination.old
        (buffers_of base.old system.old vector.old memory.old []))) }
    ensures scratch { Scratched (call_of options false nodes sources sheet.now points.now elimination.old
        (buffers_of base.old system.old vector.old memory.old [])) elimination.new }
{
    savrunte::savrunte_dc(
        sheet,
        points,
        nodes,
        sources,
        options,
        base,
        system,
        elimination,
        vector,
        memory,
    )
}

// The transient analysis of a sheet: DC first, then steps, whose rows go to `rows`.
#[unsafe(no_mangle)]
pub extern "C" fn savrunte_transient(
    sheet: &[u8],
    points: &[u8],
    nodes: usize,
    sources: usize,
    options: Options,
    base: &mut [f64],
    system: &mut [f64],
    elimination: &mut [f64],
    vector: &mut [f64],
    memory: &mut [f64],
    rows: &mut [f64],
) -> TransientAnswer
    ensures all { transient_of result (buffers_of base.new system.new vector.new memory.new rows.new)
        ≡ transient_result (run_of (call_of options true nodes sources sheet.now points.now elimination.old
        (buffers_of base.old system.old vector.old memory.old rows.old))) }
    ensures scratch { Scratched (call_of options true nodes sources sheet.now points.now elimination.old
        (buffers_of base.old system.old vector.old memory.old rows.old)) elimination.new }
{
    savrunte::savrunte_transient(
        sheet,
        points,
        nodes,
        sources,
        options,
        base,
        system,
        elimination,
        vector,
        memory,
        rows,
    )
}

// The first record whose diode is behind at this vector, with this memory: 0 for none, else 1 and its place.
#[unsafe(no_mangle)]
pub extern "C" fn savrunte_behind(
    sheet: &[u8],
    vector: &[f64],
    memory: &[f64],
    options: Options,
) -> u64
    ensures { result ≡ behind_number options sheet.now vector.now memory.now }
{
    savrunte::savrunte_behind(sheet, vector, memory, options)
}

// All spreads in one call: every job run, and the report over them.
#[unsafe(no_mangle)]
pub extern "C" fn savrunte_spreads(
    sheets: &[u8],
    points: &[u8],
    jobs: usize,
    nodes: usize,
    sources: usize,
    unknown: usize,
    options: Options,
    base: &mut [f64],
    system: &mut [f64],
    elimination: &mut [f64],
    memory: &mut [f64],
    vectors: &mut [f64],
    numbers: &mut [u64],
    places: &mut [u64],
    passes: &mut [u64],
    counts: &mut [u64],
    plus: &mut [u64],
    minus: &mut [u64],
) -> SpreadsAnswer
    ensures all { door_of result (results_of vectors.new numbers.new places.new passes.new counts.new plus.new minus.new)
        ≡ door_result (spreads_of (batch_of options jobs nodes sources unknown sheets.now points.now
        (scratch_of base.old system.old elimination.old memory.old)
        (results_of vectors.old numbers.old places.old passes.old counts.old plus.old minus.old))) }
    ensures scratch { ScratchKept (batch_of options jobs nodes sources unknown sheets.now points.now
        (scratch_of base.old system.old elimination.old memory.old)
        (results_of vectors.old numbers.old places.old passes.old counts.old plus.old minus.old))
        (scratch_of base.new system.new elimination.new memory.new) }
{
    savrunte::savrunte_spreads(
        sheets,
        points,
        jobs,
        nodes,
        sources,
        unknown,
        options,
        base,
        system,
        elimination,
        memory,
        vectors,
        numbers,
        places,
        passes,
        counts,
        plus,
        minus,
    )
}

// All spreads in one call, with each job's cause where it is not sound, and a report over the sound ones beside that over the settled.
#[unsafe(no_mangle)]
pub extern "C" fn savrunte_sound_spreads(
    sheets: &[u8],
    points: &[u8],
    tolerances: &[f64],
    jobs: usize,
    nodes: usize,
    sources: usize,
    unknown: usize,
    options: Options,
    base: &mut [f64],
    system: &mut [f64],
    elimination: &mut [f64],
    memory: &mut [f64],
    vectors: &mut [f64],
    causes: &mut [u64],
    places: &mut [u64],
    passes: &mut [u64],
    counts: &mut [u64],
    plus: &mut [u64],
    minus: &mut [u64],
    sound_plus: &mut [u64],
    sound_minus: &mut [u64],
) -> SoundAnswer
    ensures all { sound_door_of result (sound_results_of vectors.new causes.new places.new passes.new counts.new plus.new minus.new sound_plus.new sound_minus.new)
        ≡ sound_door_result (sound_of (sound_call_of options jobs nodes sources unknown sheets.now points.now tolerances.now
        (scratch_of base.old system.old elimination.old memory.old)
        (sound_results_of vectors.old causes.old places.old passes.old counts.old plus.old minus.old sound_plus.old sound_minus.old))) }
    ensures scratch { SoundScratchKept (sound_call_of options jobs nodes sources unknown sheets.now points.now tolerances.now
        (scratch_of base.old system.old elimination.old memory.old)
        (sound_results_of vectors.old causes.old places.old passes.old counts.old plus.old minus.old sound_plus.old sound_minus.old))
        (scratch_of base.new system.new elimination.new memory.new) }
{
    savrunte::savrunte_sound_spreads(
        sheets,
        points,
        tolerances,
        jobs,
        nodes,
        sources,
        unknown,
        options,
        base,
        system,
        elimination,
        memory,
        vectors,
        causes,
        places,
        passes,
        counts,
        plus,
        minus,
        sound_plus,
        sound_minus,
    )
}

#[unsafe(no_mangle)]
pub extern "C" fn savrunte_mean(plus: &[u64], minus: &[u64], count: u64) -> f64
    ensures { result ≡ mean_of plus.now minus.now count }
{
    savrunte::savrunte_mean(plus, minus, count)
}

#[unsafe(no_mangle)]
pub extern "C" fn savrunte_exp(x: f64) -> f64
    ensures { result ≡ exp_of x }
{
    savrunte::savrunte_exp(x)
}

#[unsafe(no_mangle)]
pub extern "C" fn savrunte_ln(x: f64) -> f64
    ensures { result ≡ ln_of x }
{
    savrunte::savrunte_ln(x)
}

#[unsafe(no_mangle)]
pub extern "C" fn savrunte_sin(x: f64) -> SinAnswer
    ensures { result ≡ sin_answer (sin_of x) }
{
    savrunte::savrunte_sin(x)
}

#[unsafe(no_mangle)]
pub extern "C" fn savrunte_convergence(
    x: &[f64],
    y: &[f64],
    nodes: usize,
    options: Options,
) -> ConvergenceAnswer
    ensures { result ≡ convergence_answer (convergence_of x.now y.now nodes options) }
{
    savrunte::savrunte_convergence(x, y, nodes, options)
}

#[unsafe(no_mangle)]
pub extern "C" fn savrunte_pattern(points: &[u8], t_delay: f64, repeat: f64, t: f64) -> f64
    ensures { result ≡ pattern_at (points_from points.now 0 (length points.now / 16)) t_delay repeat t }
{
    savrunte::savrunte_pattern(points, t_delay, repeat, t)
}

#[unsafe(no_mangle)]
pub extern "C" fn savrunte_pattern_first(points: &[u8], t_delay: f64, repeat: f64, t: f64) -> f64
    ensures { result ≡ pattern_first_at (points_from points.now 0 (length points.now / 16)) t_delay repeat t }
{
    savrunte::savrunte_pattern_first(points, t_delay, repeat, t)
}

#[unsafe(no_mangle)]
pub extern "C" fn savrunte_capacitor(value: f64, v: f64, step: f64) -> CompanionAnswer
    ensures { result ≡ companion (companion_of value v step) }
{
    savrunte::savrunte_capacitor(value, v, step)
}

#[unsafe(no_mangle)]
pub extern "C" fn savrunte_diode(
    i_sat: f64,
    tdegc: f64,
    v: f64,
    memory: f64,
    options: Options,
) -> DiodeAnswer
    ensures { result ≡ diode_answer memory (linearized options i_sat tdegc v memory) }
{
    savrunte::savrunte_diode(i_sat, tdegc, v, memory, options)
}

#[unsafe(no_mangle)]
pub extern "C" fn savrunte_solve(matrix: &mut [f64], vector: &mut [f64], rows: usize) -> u64
    ensures { solved_as result matrix.new vector.new ≡ solve_of rows matrix.old vector.old }
{
    savrunte::savrunte_solve(matrix, vector, rows)
}

#[unsafe(no_mangle)]
pub extern "C" fn savrunte_judge(
    system: &[f64],
    vector: &[f64],
    tolerances: &[f64],
    rows: usize,
) -> JudgeAnswer
    ensures { result ≡ judge_answer rows (judge_of rows system.now vector.now tolerances.now) }
{
    savrunte::savrunte_judge(system, vector, tolerances, rows)
}
