// One call: its buffers are lent as the format says, the C door's function makes it, and what it answers and leaves is held against the stored report.
use super::{rooms, tallied};
use jobs::{Lengths, Spreads, SpreadsReport, within, within_words};
use savrunte::SpreadsAnswer;

// The first field in which a call differs from the stored report; or none, or that it cannot be read.
#[derive(Clone, Copy)]
pub enum Found {
    Nothing,
    Refusal,
    Settled,
    Smallest,
    Largest,
    SmallestAt,
    LargestAt,
    Base,
    System,
    Elimination,
    Memory,
    Vectors,
    Numbers,
    Places,
    Passes,
    Counts,
    Plus,
    Minus,
    Unreadable,
}

// Whether nothing after this call can be read.
pub fn ends(f: Found) -> bool {
    match f {
        Found::Unreadable => true,
        _ => false,
    }
}

// Whether every part was read to its end, and no lent length is beyond the room for it.
pub fn whole(h: Spreads, r: SpreadsReport, sheets: u64, points: u64, words: u64) -> bool {
    let z = r.lent;
    let parts = (sheets == h.sheets) & (points == h.points) & (words == r.bytes);
    parts & floats_fit(z) & words_fit(z)
}

fn floats_fit(z: Lengths) -> bool {
    let most = jobs::MATRIX as u64;
    let matrices = (z.base <= most) & (z.system <= most) & (z.elimination <= most);
    let others = (z.memory <= jobs::MEMORY as u64) & (z.vectors <= rooms::VECTOR_FLOATS as u64);
    matrices & others
}

fn words_fit(z: Lengths) -> bool {
    let most = rooms::LIST as u64;
    let lists = (z.numbers <= most) & (z.places <= most) & (z.passes <= most);
    let others = (z.counts <= most) & (z.plus <= most) & (z.minus <= most);
    lists & others
}

// What a call leaves: in the scratch, ..
#[derive(Drop)]
struct Left {
    lists: Lists,
    base: [f64; jobs::MATRIX],
    system: [f64; jobs::MATRIX],
    elimination: [f64; jobs::MATRIX],
    memory: [f64; jobs::MEMORY],
}

// .. for each job, ..
#[derive(Clone, Copy)]
struct Lists {
    totals: Totals,
    vectors: [f64; rooms::VECTOR_ROOM],
    numbers: [u64; rooms::LIST_ROOM],
    places: [u64; rooms::LIST_ROOM],
    passes: [u64; rooms::LIST_ROOM],
}

// .. and over all jobs, with its answer.
#[derive(Clone, Copy)]
struct Totals {
    answer: SpreadsAnswer,
    counts: [u64; rooms::LIST_ROOM],
    plus: [u64; rooms::LIST_ROOM],
    minus: [u64; rooms::LIST_ROOM],
}

// Makes a call that was read whole, in rooms that hold all that it lends, and finds the first field that differs.
pub fn replayed(
    h: Spreads,
    r: SpreadsReport,
    sheets: &[u8],
    points: &[u8],
    words: &[u8],
    tallied: &mut [u64],
) -> Found {
    let z = r.lent;
    let left = made(h, z, sheets, points);
    let lists = left.lists;
    let totals = lists.totals;
    let a = totals.answer;
    tallied_as(totals, tallied);
    let results = first(
        lists_compared(lists, r, words),
        totals_compared(totals, r, words),
    );
    first(
        number_found(a, r),
        first(results, scratch_compared(left, r)),
    )
}

// Counts the call, and its jobs as it counted them.
fn tallied_as(totals: Totals, tallied: &mut [u64]) {
    let counts = totals.counts;
    let a = totals.answer;
    tallied::ended(tallied, a.refusal, &counts);
}

// The first of two fields that differs.
fn first(f: Found, g: Found) -> Found {
    if let Found::Nothing = f {
        return g;
    }
    f
}

// Lends the scratch, and then the rest.
fn made(h: Spreads, z: Lengths, sheets: &[u8], points: &[u8]) -> Left {
    let mut base = rooms::matrix(rooms::BASE);
    let mut system = rooms::matrix(rooms::SYSTEM);
    let mut elimination = rooms::matrix(rooms::ELIMINATION);
    let mut memory = rooms::memory(rooms::MEMORY);
    let b = within(&base, z.base as usize);
    let s = within(&system, z.system as usize);
    let e = within(&elimination, z.elimination as usize);
    let m = within(&memory, z.memory as usize);
    let lists = with_lists(
        h,
        z,
        sheets,
        points,
        &mut base[..b],
        &mut system[..s],
        &mut elimination[..e],
        &mut memory[..m],
    );
    Left {
        lists,
        base,
        system,
        elimination,
        memory,
    }
}

// Lends what there is for each job, and then the rest.
fn with_lists(
    h: Spreads,
    z: Lengths,
    sheets: &[u8],
    points: &[u8],
    base: &mut [f64],
    system: &mut [f64],
    elimination: &mut [f64],
    memory: &mut [f64],
) -> Lists {
    let mut vectors = rooms::vectors(rooms::VECTORS);
    let mut numbers = rooms::list(rooms::NUMBERS);
    let mut places = rooms::list(rooms::PLACES);
    let mut passes = rooms::list(rooms::PASSES);
    let v = within(&vectors, z.vectors as usize);
    let n = within_words(&numbers, z.numbers as usize);
    let l = within_words(&places, z.places as usize);
    let p = within_words(&passes, z.passes as usize);
    let totals = with_totals(
        h,
        z,
        sheets,
        points,
        base,
        system,
        elimination,
        memory,
        &mut vectors[..v],
        &mut numbers[..n],
        &mut places[..l],
        &mut passes[..p],
    );
    Lists {
        totals,
        vectors,
        numbers,
        places,
        passes,
    }
}

// Lends what there is over all jobs, and makes the call.
fn with_totals(
    h: Spreads,
    z: Lengths,
    sheets: &[u8],
    points: &[u8],
    base: &mut [f64],
    system: &mut [f64],
    elimination: &mut [f64],
    memory: &mut [f64],
    vectors: &mut [f64],
    numbers: &mut [u64],
    places: &mut [u64],
    passes: &mut [u64],
) -> Totals {
    let mut counts = rooms::list(rooms::COUNTS);
    let mut plus = rooms::list(rooms::PLUS);
    let mut minus = rooms::list(rooms::MINUS);
    let c = within_words(&counts, z.counts as usize);
    let u = within_words(&plus, z.plus as usize);
    let d = within_words(&minus, z.minus as usize);
    let o = h.options;
    let answer = savrunte::savrunte_spreads(
        sheets,
        points,
        h.jobs as usize,
        h.nodes as usize,
        h.sources as usize,
        h.unknown as usize,
        o,
        base,
        system,
        elimination,
        memory,
        vectors,
        numbers,
        places,
        passes,
        &mut counts[..c],
        &mut plus[..u],
        &mut minus[..d],
    );
    Totals {
        answer,
        counts,
        plus,
        minus,
    }
}

// The first number that is not the stored one.
fn number_found(a: SpreadsAnswer, r: SpreadsReport) -> Found {
    if a.refusal != r.refusal {
        return Found::Refusal;
    }
    if a.settled != r.settled {
        return Found::Settled;
    }
    if !jobs::same(a.smallest, r.smallest) {
        return Found::Smallest;
    }
    if !jobs::same(a.largest, r.largest) {
        return Found::Largest;
    }
    if a.smallest_at != r.smallest_at {
        return Found::SmallestAt;
    }
    if a.largest_at != r.largest_at {
        return Found::LargestAt;
    }
    Found::Nothing
}

// The first scratch buffer that is not as it was lent past the length that the call needs. What stands before is nobody's promise.
fn scratch_compared(left: Left, r: SpreadsReport) -> Found {
    let base = left.base;
    let system = left.system;
    let elimination = left.elimination;
    let memory = left.memory;
    scratch_found(&base, &system, &elimination, &memory, r)
}

// The same of buffers by themselves.
fn scratch_found(
    base: &[f64],
    system: &[f64],
    elimination: &[f64],
    memory: &[f64],
    r: SpreadsReport,
) -> Found {
    let n = r.matrix as usize;
    if !jobs::kept(base, rooms::BASE, n) {
        return Found::Base;
    }
    if !jobs::kept(system, rooms::SYSTEM, n) {
        return Found::System;
    }
    if !jobs::kept(elimination, rooms::ELIMINATION, n) {
        return Found::Elimination;
    }
    if !jobs::kept(memory, rooms::MEMORY, r.memory as usize) {
        return Found::Memory;
    }
    Found::Nothing
}

// The first buffer with something for each job that does not hold what is stored and, after it, what was lent. The stored words stand one buffer after the other.
fn lists_compared(lists: Lists, r: SpreadsReport, words: &[u8]) -> Found {
    let vectors = lists.vectors;
    let numbers = lists.numbers;
    let places = lists.places;
    let passes = lists.passes;
    lists_found(&vectors, &numbers, &places, &passes, r, words)
}

// The same of buffers by themselves.
fn lists_found(
    vectors: &[f64],
    numbers: &[u64],
    places: &[u64],
    passes: &[u64],
    r: SpreadsReport,
    words: &[u8],
) -> Found {
    let v = r.vectors as usize;
    let n = r.numbers as usize;
    let l = r.places as usize;
    let n_at = jobs::after(0, v);
    let l_at = jobs::after(n_at, n);
    let p_at = jobs::after(l_at, l);
    if !jobs::holds(vectors, rooms::VECTORS, words, 0, v) {
        return Found::Vectors;
    }
    if !jobs::words_hold(numbers, rooms::NUMBERS, words, n_at, n) {
        return Found::Numbers;
    }
    if !jobs::words_hold(places, rooms::PLACES, words, l_at, l) {
        return Found::Places;
    }
    if !jobs::words_hold(passes, rooms::PASSES, words, p_at, r.passes as usize) {
        return Found::Passes;
    }
    Found::Nothing
}

// Where the words of the buffers with something for each job end.
fn lists_end(r: SpreadsReport) -> usize {
    let n_at = jobs::after(0, r.vectors as usize);
    let l_at = jobs::after(n_at, r.numbers as usize);
    jobs::after(jobs::after(l_at, r.places as usize), r.passes as usize)
}

// The first of the counts and the two rows of the sum that does not.
fn totals_compared(totals: Totals, r: SpreadsReport, words: &[u8]) -> Found {
    let counts = totals.counts;
    let plus = totals.plus;
    let minus = totals.minus;
    totals_found(&counts, &plus, &minus, r, words, lists_end(r))
}

// The same of buffers by themselves, whose words stand from place `at` on and are the last.
fn totals_found(
    counts: &[u64],
    plus: &[u64],
    minus: &[u64],
    r: SpreadsReport,
    words: &[u8],
    at: usize,
) -> Found {
    let c = r.counts as usize;
    let u = r.plus as usize;
    let d = r.minus as usize;
    let u_at = jobs::after(at, c);
    let d_at = jobs::after(u_at, u);
    if !jobs::words_hold(counts, rooms::COUNTS, words, at, c) {
        return Found::Counts;
    }
    if !jobs::words_hold(plus, rooms::PLUS, words, u_at, u) {
        return Found::Plus;
    }
    if !jobs::words_hold(minus, rooms::MINUS, words, d_at, d) {
        return Found::Minus;
    }
    if jobs::after(d_at, d) != words.len() {
        return Found::Unreadable;
    }
    Found::Nothing
}
