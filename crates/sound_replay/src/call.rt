// One call: its buffers are lent as the format says, the C door's function makes it, and what it answers and leaves is held against the two stored reports.
use super::{rooms, tallied};
use jobs::{Lengths, Spreads, SpreadsReport, within, within_words};
use num::f64_at;
use savrunte::SoundAnswer;

// The first field in which a call differs from the stored reports; or none, or that it cannot be read.
#[derive(Clone, Copy)]
pub enum Found {
    Nothing,
    Refusal,
    Settled,
    Smallest,
    Largest,
    SmallestAt,
    LargestAt,
    Base,
    System,
    Elimination,
    Memory,
    Vectors,
    Causes,
    Places,
    Passes,
    Counts,
    Plus,
    Minus,
    Sound,
    SoundSmallest,
    SoundLargest,
    SoundSmallestAt,
    SoundLargestAt,
    SoundPlus,
    SoundMinus,
    Unreadable,
}

// Whether nothing after this call can be read.
pub fn ends(f: Found) -> bool {
    match f {
        Found::Unreadable => true,
        _ => false,
    }
}

// Whether the call's parts were read to their ends.
pub fn read_whole(h: Spreads, sheets: u64, points: u64, tolerances: u64) -> bool {
    (sheets == h.sheets) & (points == h.points) & (tolerances / 8 == h.tolerances)
}

// Whether the words of both reports were read to their ends, and no lent length is beyond the room for it.
pub fn whole(r: SpreadsReport, q: SpreadsReport, words: u64, more: u64) -> bool {
    let z = r.lent;
    let y = q.lent;
    (words == r.bytes) & (more == q.bytes) & floats_fit(z) & words_fit(z) & words_fit(y)
}

fn floats_fit(z: Lengths) -> bool {
    let most = jobs::MATRIX as u64;
    let matrices = (z.base <= most) & (z.system <= most) & (z.elimination <= most);
    let others = (z.memory <= jobs::MEMORY as u64) & (z.vectors <= rooms::VECTOR_FLOATS as u64);
    matrices & others
}

fn words_fit(z: Lengths) -> bool {
    let most = rooms::LIST as u64;
    let lists = (z.numbers <= most) & (z.places <= most) & (z.passes <= most);
    let others = (z.counts <= most) & (z.plus <= most) & (z.minus <= most);
    lists & others
}

// What a call leaves: in the scratch, ..
#[derive(Drop)]
struct Left {
    lists: Lists,
    base: [f64; jobs::MATRIX],
    system: [f64; jobs::MATRIX],
    elimination: [f64; jobs::MATRIX],
    memory: [f64; jobs::MEMORY],
}

// .. for each job, ..
#[derive(Clone, Copy)]
struct Lists {
    totals: Totals,
    vectors: [f64; rooms::VECTOR_ROOM],
    causes: [u64; rooms::LIST_ROOM],
    places: [u64; rooms::LIST_ROOM],
    passes: [u64; rooms::LIST_ROOM],
}

// .. and over all jobs, with its answer.
#[derive(Clone, Copy)]
struct Totals {
    answer: SoundAnswer,
    counts: [u64; rooms::LIST_ROOM],
    plus: [u64; rooms::LIST_ROOM],
    minus: [u64; rooms::LIST_ROOM],
    sound_plus: [u64; rooms::LIST_ROOM],
    sound_minus: [u64; rooms::LIST_ROOM],
}

// Makes a call that was read whole, in rooms that hold all that it lends, and finds the first field that differs.
pub fn replayed(
    h: Spreads,
    r: SpreadsReport,
    q: SpreadsReport,
    sheets: &[u8],
    points: &[u8],
    tolerances: &[u8],
    words: &[u8],
    more: &[u8],
    tallied: &mut [u64],
) -> Found {
    let z = r.lent;
    let y = q.lent;
    let mut t = jobs::vector_room();
    floats(tolerances, &mut t);
    let n = within(&t, h.tolerances as usize);
    let left = made(h, z, y, sheets, points, &t[..n]);
    let lists = left.lists;
    let totals = lists.totals;
    let a = totals.answer;
    tallied_as(totals, tallied);
    let results = first(
        lists_compared(lists, r, words),
        totals_compared(totals, r, words),
    );
    let sound = first(sound_found(a, q), rows_compared(totals, q, more));
    first(
        first(number_found(a, r), sound),
        first(results, scratch_compared(left, r)),
    )
}

// The floats that these bytes stand for.
fn floats(bytes: &[u8], x: &mut [f64]) {
    for i in 0..x.len() {
        x[i] = f64_at(bytes, 8 * i);
    }
}

// Counts the call, and its jobs as it counted them.
fn tallied_as(totals: Totals, tallied: &mut [u64]) {
    let counts = totals.counts;
    let a = totals.answer;
    tallied::ended(tallied, a.refusal, &counts);
}

// The first of two fields that differs.
fn first(f: Found, g: Found) -> Found {
    if let Found::Nothing = f {
        return g;
    }
    f
}

// Lends the scratch, and then the rest.
fn made(
    h: Spreads,
    z: Lengths,
    y: Lengths,
    sheets: &[u8],
    points: &[u8],
    tolerances: &[f64],
) -> Left {
    let mut base = rooms::matrix(rooms::BASE);
    let mut system = rooms::matrix(rooms::SYSTEM);
    let mut elimination = rooms::matrix(rooms::ELIMINATION);
    let mut memory = rooms::memory(rooms::MEMORY);
    let b = within(&base, z.base as usize);
    let s = within(&system, z.system as usize);
    let e = within(&elimination, z.elimination as usize);
    let m = within(&memory, z.memory as usize);
    let lists = with_lists(
        h,
        z,
        y,
        sheets,
        points,
        tolerances,
        &mut base[..b],
        &mut system[..s],
        &mut elimination[..e],
        &mut memory[..m],
    );
    Left {
        lists,
        base,
        system,
        elimination,
        memory,
    }
}

// Lends what there is for each job, and then the rest.
fn with_lists(
    h: Spreads,
    z: Lengths,
    y: Lengths,
    sheets: &[u8],
    points: &[u8],
    tolerances: &[f64],
    base: &mut [f64],
    system: &mut [f64],
    elimination: &mut [f64],
    memory: &mut [f64],
) -> Lists {
    let mut vectors = rooms::vectors(rooms::VECTORS);
    let mut causes = rooms::list(rooms::CAUSES);
    let mut places = rooms::list(rooms::PLACES);
    let mut passes = rooms::list(rooms::PASSES);
    let v = within(&vectors, z.vectors as usize);
    let n = within_words(&causes, z.numbers as usize);
    let l = within_words(&places, z.places as usize);
    let p = within_words(&passes, z.passes as usize);
    let totals = with_totals(
        h,
        z,
        y,
        sheets,
        points,
        tolerances,
        base,
        system,
        elimination,
        memory,
        &mut vectors[..v],
        &mut causes[..n],
        &mut places[..l],
        &mut passes[..p],
    );
    Lists {
        totals,
        vectors,
        causes,
        places,
        passes,
    }
}

// Lends what there is over all jobs, and makes the call.
fn with_totals(
    h: Spreads,
    z: Lengths,
    y: Lengths,
    sheets: &[u8],
    points: &[u8],
    tolerances: &[f64],
    base: &mut [f64],
    system: &mut [f64],
    elimination: &mut [f64],
    memory: &mut [f64],
    vectors: &mut [f64],
    causes: &mut [u64],
    places: &mut [u64],
    passes: &mut [u64],
) -> Totals {
    let mut counts = rooms::list(rooms::COUNTS);
    let mut plus = rooms::list(rooms::PLUS);
    let mut minus = rooms::list(rooms::MINUS);
    let c = within_words(&counts, z.counts as usize);
    let u = within_words(&plus, z.plus as usize);
    let d = within_words(&minus, z.minus as usize);
    let mut sound_plus = rooms::list(rooms::SOUND_PLUS);
    let mut sound_minus = rooms::list(rooms::SOUND_MINUS);
    let f = within_words(&sound_plus, y.plus as usize);
    let g = within_words(&sound_minus, y.minus as usize);
    let o = h.options;
    let answer = savrunte::savrunte_sound_spreads(
        sheets,
        points,
        tolerances,
        h.jobs as usize,
        h.nodes as usize,
        h.sources as usize,
        h.unknown as usize,
        o,
        base,
        system,
        elimination,
        memory,
        vectors,
        causes,
        places,
        passes,
        &mut counts[..c],
        &mut plus[..u],
        &mut minus[..d],
        &mut sound_plus[..f],
        &mut sound_minus[..g],
    );
    Totals {
        answer,
        counts,
        plus,
        minus,
        sound_plus,
        sound_minus,
    }
}

// The first number that is not the stored one.
fn number_found(a: SoundAnswer, r: SpreadsReport) -> Found {
    if a.refusal != r.refusal {
        return Found::Refusal;
    }
    if a.settled != r.settled {
        return Found::Settled;
    }
    if !jobs::same(a.smallest, r.smallest) {
        return Found::Smallest;
    }
    if !jobs::same(a.largest, r.largest) {
        return Found::Largest;
    }
    if a.smallest_at != r.smallest_at {
        return Found::SmallestAt;
    }
    if a.largest_at != r.largest_at {
        return Found::LargestAt;
    }
    Found::Nothing
}

// The first number over the sound jobs that is not the second report's.
fn sound_found(a: SoundAnswer, q: SpreadsReport) -> Found {
    if a.refusal != q.refusal {
        return Found::Refusal;
    }
    if a.sound != q.settled {
        return Found::Sound;
    }
    if !jobs::same(a.sound_smallest, q.smallest) {
        return Found::SoundSmallest;
    }
    if !jobs::same(a.sound_largest, q.largest) {
        return Found::SoundLargest;
    }
    if a.sound_smallest_at != q.smallest_at {
        return Found::SoundSmallestAt;
    }
    if a.sound_largest_at != q.largest_at {
        return Found::SoundLargestAt;
    }
    Found::Nothing
}

// The first scratch buffer that is not as it was lent past the length that the call needs. What stands before is nobody's promise.
fn scratch_compared(left: Left, r: SpreadsReport) -> Found {
    let base = left.base;
    let system = left.system;
    let elimination = left.elimination;
    let memory = left.memory;
    scratch_found(&base, &system, &elimination, &memory, r)
}

// The same of buffers by themselves.
fn scratch_found(
    base: &[f64],
    system: &[f64],
    elimination: &[f64],
    memory: &[f64],
    r: SpreadsReport,
) -> Found {
    let n = r.matrix as usize;
    if !jobs::kept(base, rooms::BASE, n) {
        return Found::Base;
    }
    if !jobs::kept(system, rooms::SYSTEM, n) {
        return Found::System;
    }
    if !jobs::kept(elimination, rooms::ELIMINATION, n) {
        return Found::Elimination;
    }
    if !jobs::kept(memory, rooms::MEMORY, r.memory as usize) {
        return Found::Memory;
    }
    Found::Nothing
}

// The first buffer with something for each job that does not hold what is stored and, after it, what was lent. The stored words stand one buffer after the other.
fn lists_compared(lists: Lists, r: SpreadsReport, words: &[u8]) -> Found {
    let vectors = lists.vectors;
    let causes = lists.causes;
    let places = lists.places;
    let passes = lists.passes;
    lists_found(&vectors, &causes, &places, &passes, r, words)
}

// The same of buffers by themselves.
fn lists_found(
    vectors: &[f64],
    causes: &[u64],
    places: &[u64],
    passes: &[u64],
    r: SpreadsReport,
    words: &[u8],
) -> Found {
    let v = r.vectors as usize;
    let n = r.numbers as usize;
    let l = r.places as usize;
    let n_at = jobs::after(0, v);
    let l_at = jobs::after(n_at, n);
    let p_at = jobs::after(l_at, l);
    if !jobs::holds(vectors, rooms::VECTORS, words, 0, v) {
        return Found::Vectors;
    }
    if !jobs::words_hold(causes, rooms::CAUSES, words, n_at, n) {
        return Found::Causes;
    }
    if !jobs::words_hold(places, rooms::PLACES, words, l_at, l) {
        return Found::Places;
    }
    if !jobs::words_hold(passes, rooms::PASSES, words, p_at, r.passes as usize) {
        return Found::Passes;
    }
    Found::Nothing
}

// Where the words of the buffers with something for each job end.
fn lists_end(r: SpreadsReport) -> usize {
    let n_at = jobs::after(0, r.vectors as usize);
    let l_at = jobs::after(n_at, r.numbers as usize);
    jobs::after(jobs::after(l_at, r.places as usize), r.passes as usize)
}

// The first of the counts and the two rows of the sum that does not.
fn totals_compared(totals: Totals, r: SpreadsReport, words: &[u8]) -> Found {
    let counts = totals.counts;
    let plus = totals.plus;
    let minus = totals.minus;
    totals_found(&counts, &plus, &minus, r, words, lists_end(r))
}

// The same of buffers by themselves, whose words stand from place `at` on and are the last.
fn totals_found(
    counts: &[u64],
    plus: &[u64],
    minus: &[u64],
    r: SpreadsReport,
    words: &[u8],
    at: usize,
) -> Found {
    let c = r.counts as usize;
    let u = r.plus as usize;
    let d = r.minus as usize;
    let u_at = jobs::after(at, c);
    let d_at = jobs::after(u_at, u);
    if !jobs::words_hold(counts, rooms::COUNTS, words, at, c) {
        return Found::Counts;
    }
    if !jobs::words_hold(plus, rooms::PLUS, words, u_at, u) {
        return Found::Plus;
    }
    if !jobs::words_hold(minus, rooms::MINUS, words, d_at, d) {
        return Found::Minus;
    }
    if jobs::after(d_at, d) != words.len() {
        return Found::Unreadable;
    }
    Found::Nothing
}

// The first of the two rows over the sound jobs that does not.
fn rows_compared(totals: Totals, q: SpreadsReport, more: &[u8]) -> Found {
    let plus = totals.sound_plus;
    let minus = totals.sound_minus;
    rows_found(&plus, &minus, q, more)
}

// The same of buffers by themselves; their words are all that the second report has.
fn rows_found(plus: &[u64], minus: &[u64], q: SpreadsReport, more: &[u8]) -> Found {
    let u = q.plus as usize;
    let d = q.minus as usize;
    let d_at = jobs::after(0, u);
    if !jobs::words_hold(plus, rooms::SOUND_PLUS, more, 0, u) {
        return Found::SoundPlus;
    }
    if !jobs::words_hold(minus, rooms::SOUND_MINUS, more, d_at, d) {
        return Found::SoundMinus;
    }
    if jobs::after(d_at, d) != more.len() {
        return Found::Unreadable;
    }
    Found::Nothing
}
