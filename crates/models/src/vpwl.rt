// The piecewise-linear source. Its pattern is a part of the lent points: 16 bytes each, the time and then the level.
ghost use Rattle.std.specs.Prelude.{◌≡◌, ◌+◌};
ghost use Rattle.models.specs.Vpwl.{point_at, points_from, pattern_at, between, past_end, level_on, or_zero, at_end, pattern_first_at, pattern_of};
ghost use Rattle.num.specs.Floats.{nought};

use num::f64_at;

// A point of a pattern.
#[derive(Clone, Copy, Debug)]
pub struct Point {
    pub time: f64,
    pub level: f64,
}

// The two points that a cycle time lies between.
#[derive(Clone, Copy, Debug)]
struct Segment {
    t1: f64,
    v1: f64,
    t2: f64,
    v2: f64,
}

// The level at time t of the `count` points from number `first` on. A byte past the end of the points reads as 0.
pub fn evaluate(points: &[u8], first: usize, count: usize, t_delay: f64, repeat: f64, t: f64) -> f64
    ensures { result ≡ pattern_at (points_from points.now first count) t_delay repeat t }
{
    if count == 0 {
        return 0.0;
    }
    let last = point_at(points, first, count - 1);
    if past_end(repeat, t, t_delay + last.time) {
        return last.level;
    }
    let t_cycle = remainder::remainder(t - t_delay, last.time);
    if t_cycle < 0.0 {
        return 0.0;
    }
    level_on(between(points, first, count, t_cycle), t_cycle)
}

// Whether a pattern that does not repeat is over at time t.
fn past_end(repeat: f64, t: f64, end: f64) -> bool
    ensures { result ≡ past_end repeat t end }
{
    if repeat < 0.0 {
        return t > end;
    }
    false
}

// The level at t_cycle on the line through a segment's two points, its gradient 0.0 where that is no number.
fn level_on(s: Segment, t_cycle: f64) -> f64
    ensures { result ≡ level_on s t_cycle }
{
    let gradient = or_zero((s.v2 - s.v1) / (s.t2 - s.t1));
    gradient * (t_cycle - s.t1) + s.v1
}

// The number x, or 0.0 where x is a NaN.
fn or_zero(x: f64) -> f64
    ensures { result ≡ or_zero x }
{
    if x != x { 0.0 } else { x }
}

// The last point before t_cycle, and the first that is not; (0, 0) where there is none.
fn between(points: &[u8], first: usize, count: usize, t_cycle: f64) -> Segment
    ensures { result ≡ between t_cycle nought nought (points_from points.now first count) }
{
    let mut t1 = 0.0;
    let mut v1 = 0.0;
    for i in 0..count {
        let tv = point_at(points, first, i);
        if t_cycle > tv.time {
            t1 = tv.time;
            v1 = tv.level;
        } else {
            return Segment {
                t1,
                v1,
                t2: tv.time,
                v2: tv.level,
            };
        }
    }
    Segment {
        t1,
        v1,
        t2: 0.0,
        v2: 0.0,
    }
}

// The point of number first + i.
fn point_at(points: &[u8], first: usize, i: usize) -> Point
    ensures { result ≡ point_at points.now (first + i) }
{
    let whole = points.len() / 16;
    if whole < first {
        return Point {
            time: 0.0,
            level: 0.0,
        };
    }
    if whole - first < i {
        return Point {
            time: 0.0,
            level: 0.0,
        };
    }
    let at = 16 * (first + i);
    Point {
        time: f64_at(points, at),
        level: f64_at(points, at + 8),
    }
}

// The level of a pattern at time t, by the option `pattern_first`.
pub fn level(
    pattern_first: bool,
    points: &[u8],
    first: usize,
    count: usize,
    t_delay: f64,
    repeat: f64,
    t: f64,
) -> f64
    ensures { result ≡ pattern_of pattern_first (points_from points.now first count) t_delay repeat t }
{
    if pattern_first {
        return evaluate_first(points, first, count, t_delay, repeat, t);
    }
    evaluate(points, first, count, t_delay, repeat, t)
}

// The level at time t with the option on: before the delay 0, without repeat the last level from the end on, the first level up to the first point's own time, else as `evaluate`.
pub fn evaluate_first(
    points: &[u8],
    first: usize,
    count: usize,
    t_delay: f64,
    repeat: f64,
    t: f64,
) -> f64
    ensures { result ≡ pattern_first_at (points_from points.now first count) t_delay repeat t }
{
    if count == 0 {
        return 0.0;
    }
    if t < t_delay {
        return 0.0;
    }
    let last = point_at(points, first, count - 1);
    if at_end(repeat, t, t_delay + last.time) {
        return last.level;
    }
    let start = point_at(points, first, 0);
    if count == 1 {
        return start.level;
    }
    let t_cycle = remainder::remainder(t - t_delay, last.time);
    // not `<=`: a cycle time that is no number has the first level too
    if !(t_cycle > start.time) {
        return start.level;
    }
    evaluate(points, first, count, t_delay, repeat, t)
}

// Whether a pattern that does not repeat has come to its end at time t.
fn at_end(repeat: f64, t: f64, end: f64) -> bool
    ensures { result ≡ at_end repeat t end }
{
    if repeat < 0.0 {
        return t >= end;
    }
    false
}
