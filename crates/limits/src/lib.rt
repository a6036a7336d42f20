// The figures of the classes and of the percentile lines: one table, what is read off it, and the limit of a class.
#![tactic(auto)]

ghost use Rattle.std.specs.Prelude.{◌≡◌, ◌*◌, ◌^◌, ◌≤◌, ◌<◌};
ghost use Rattle.model.specs.Records.{max_samples, tenths, units, travelled};
ghost use Rattle.limits.specs.Table.{row_of, upper, share_low, share_high, coefficients_of, Most};
ghost use Rattle.limits.specs.Class.{class_of, same_class};
ghost use Rattle.limits.specs.Line.{line_of, limit_of};
ghost use Rattle.limits.specs.Bounds.{BoundedClass};

mod trip_tally;

use model::{ClassTally, Distance, Speed, SpeedClass};
pub use trip_tally::TripTally;

// The two percentile lines: up to a mean of 74.6 km/h, and above it.
#[derive(Clone, Copy)]
enum Line {
    Slow,
    Fast,
}

// The coefficients of a percentile line: factor × P95 × N against 2592 × (slope × S + intercept × N).
#[derive(Clone, Copy)]
struct Coefficients {
    factor: u64,
    slope: u64,
    intercept: u64,
}

// The least and the most share of a class in the distance, in percent.
#[derive(Clone, Copy)]
pub struct Share {
    pub low: u64,
    pub high: u64,
}

// What the table has for a class: the highest speed, the share, and the coefficients of each line.
#[derive(Clone, Copy)]
struct Row {
    upper: Speed,
    share: Share,
    lines: [Coefficients; 2],
}

// The lines are the same for each class.
const LINES: [Coefficients; 2] = [
    Coefficients {
        factor: 10000,
        slope: 136,
        intercept: 144400,
    },
    Coefficients {
        factor: 100000,
        slope: 742,
        intercept: 1896600,
    },
];

// A row for each class, in the order of `SpeedClass`.
const TABLE: [Row; 3] = [
    Row {
        upper: Speed(600),
        share: Share { low: 29, high: 44 },
        lines: LINES,
    },
    Row {
        upper: Speed(900),
        share: Share { low: 23, high: 43 },
        lines: LINES,
    },
    Row {
        upper: Speed(3000),
        share: Share { low: 23, high: 43 },
        lines: LINES,
    },
];

// The two sides of rules 18 to 20 for a class: P95 is beyond the line where side < factor × P95.
#[derive(Clone, Copy)]
pub struct PowerLimit {
    // The right side.
    pub side: u64,
    // The left side's factor of P95, N with it.
    pub factor: u64,
}

#[tactic(auto, unfolding(crate::specs::Table::row_of))]
fn row_of(c: SpeedClass) -> Row
    ensures { result ≡ row_of c }
{
    TABLE[c as usize]
}

// The highest speed of a class.
pub fn upper(c: SpeedClass) -> Speed
    ensures { tenths result ≡ upper c }
{
    row_of(c).upper
}

// What one second at a speed covers: the one way from a speed to a distance.
pub fn travelled(v: Speed) -> Distance
    ensures { (result ≡ travelled v) × (units result < 2 ^ 16) }
{
    Distance(u64::from(v.0))
}

// The share of a class in the distance.
pub fn share_of(c: SpeedClass) -> Share
    ensures { (result.low ≡ share_low c) × (result.high ≡ share_high c) }
{
    row_of(c).share
}

// The coefficients of a percentile line of a class.
#[tactic(auto, using(crate::specs::Table::row_lines, crate::specs::Line::most), unfolding(crate::specs::Table::coefficients_of))]
fn coefficients_of(c: SpeedClass, line: Line) -> Coefficients
    ensures { (result ≡ coefficients_of c line) × Most result }
{
    row_of(c).lines[line as usize]
}

// Compared by their numbers, as everywhere: most comparisons are with products, and an order derived for `Speed` would serve this one and the walk's.
#[tactic(auto, unfolding(crate::specs::Table::row_of, crate::specs::Class::class_of))]
fn class_of(v: Speed) -> SpeedClass
    ensures { result ≡ class_of v }
{
    let urban = upper(SpeedClass::Urban);
    if v.0 <= urban.0 {
        return SpeedClass::Urban;
    }
    let rural = upper(SpeedClass::Rural);
    if v.0 <= rural.0 {
        return SpeedClass::Rural;
    }
    SpeedClass::Motorway
}

// Whether a speed is of a class.
#[tactic(auto, unfolding(crate::specs::Class::same_class))]
pub fn in_class(c: SpeedClass, v: Speed) -> bool
    ensures { result ≡ same_class c (class_of v) }
{
    c == class_of(v)
}

#[tactic(auto, using(crate::specs::Line::line_low, crate::specs::Line::line_high))]
fn line_of(samples: u64, distance: Distance) -> Line
    requires { samples ≤ max_samples }
    ensures { result ≡ line_of samples (units distance) }
{
    if distance.0 <= 746 * samples {
        Line::Slow
    } else {
        Line::Fast
    }
}

// The right side of rules 18 to 20 of a class with N samples and distance S, and beside it the left side's factor × N. No other function reckons
// either; a verdict asks for them once for each class, and no loop does (tests/limit_side.py). A class and its tally are no struct: it would be made for
// each call and taken apart in it; `BoundedClass` is asked of one class of a `TripTally`, here and by rule::share_outside alone.
#[tactic(auto, using(crate::specs::Line::power_factor_lem, crate::specs::Line::limit_side_lem), unfolding(crate::specs::Line::limit_of))]
pub fn limit_of(c: SpeedClass, t: ClassTally) -> PowerLimit
    requires { BoundedClass t }
    ensures { result ≡ limit_of t }
{
    let n = t.samples;
    let s = t.distance;
    let line = coefficients_of(c, line_of(n, s));
    PowerLimit {
        side: 2592 * (line.slope * s.0 + line.intercept * n),
        factor: line.factor * n,
    }
}
