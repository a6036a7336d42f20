// The reference record of CO2 windows, and whether a window is normal: near the CO2 characteristic curve that the record gives.
#![tactic(auto)]

ghost use Rattle.std.specs.Prelude.{◌≡◌, ◌≤◌, eqb, Ok, Err, MatchResult};
ghost use Rattle.model.specs.Numbers.{le_at};
ghost use Rattle.model.specs.Records.{tenths, units};
ghost use Rattle.model.specs.Co2Windows.{reference_of, curve_value_in_range, reference_in_range, normal_by};
ghost use Rattle.co2_curve.specs.Read.{reference_read};
ghost use Rattle.co2_curve.specs.Bounds.{BoundedSums, BoundedPoint, BoundedCurve};
ghost use Rattle.co2_curve.specs.Lines.{line_of, curve_of};

mod sound_reference;

use model::{Distance, RECORD_LEN, Reference, Refusal, Speed};
pub use sound_reference::SoundReference;

// The sums of a window: its samples, its distance, and its CO2 in mg.
#[derive(Clone, Copy)]
pub struct Sums {
    pub samples: u64,
    pub distance: Distance,
    pub co2: u64,
}

// A point of the curve: a mean speed, and CO2 in g/km.
#[derive(Clone, Copy)]
struct Point {
    speed: Speed,
    co2: u16,
}

// The curve at a window's mean speed, as a fraction: (above − below) / denominator.
#[derive(Clone, Copy)]
struct CurveAt {
    above: u64,
    below: u64,
    denominator: u64,
}

// The mean speeds of the curve's points.
const V1: Speed = Speed(190);

const V2: Speed = Speed(566);

const V3: Speed = Speed(923);

// The largest value of the curve, in g/km.
const MAX_CURVE_VALUE: u16 = 1000;

// A value of the curve, in g/km. Two comparisons: `contains` of a range says no more.
#[tactic(auto, unfolding(model::specs::Co2Windows::curve_value_in_range, model::specs::Numbers::within))]
fn curve_value_in_range(c: u16) -> bool
    ensures { result ≡ curve_value_in_range c }
{
    (1 <= c) & (c <= MAX_CURVE_VALUE)
}

// The values of a reference record are within their ranges.
#[tactic(auto, unfolding(model::specs::Co2Windows::reference_in_range, model::specs::Numbers::all))]
fn in_range(r: Reference) -> bool
    ensures { result ≡ reference_in_range r }
{
    let first = curve_value_in_range(r.c1);
    let second = curve_value_in_range(r.c2);
    let third = curve_value_in_range(r.c3);
    (1 <= r.mass) & (first & (second & third))
}

// The values of a reference record, whatever they are.
#[tactic(auto, unfolding(model::specs::Co2Windows::reference_of))]
fn reference_of(r: &[u8; RECORD_LEN]) -> Reference
    ensures { result ≡ reference_of r.now }
{
    Reference {
        mass: field::get(r, 0),
        c1: field::get(r, 4),
        c2: field::get(r, 6),
        c3: field::get(r, 8),
    }
}

// Whether the six bytes at the end of a reference record are zero.
#[tactic(auto, using(crate::proofs::Record::zeros_lem))]
fn zeros(r: &[u8; RECORD_LEN]) -> bool
    ensures { result ≡ eqb (le_at 6 r.now 10) 0 }
{
    (field::get::<u32>(r, 10) == 0) & (field::get::<u16>(r, 14) == 0)
}

// What a reference record of any length comes to.
#[tactic(auto, using(crate::proofs::Record::ways_out))]
pub fn read(r: &[u8]) -> Result<SoundReference, Refusal>
    ensures { MatchResult result (λ s. Ok s.reference ≡ reference_read r.now) (λ k. Err k ≡ reference_read r.now) }
{
    let r = r.as_array().ok_or(Refusal::ReferenceIllFormed)?;
    let reference = reference_of(r);
    if in_range(reference) & zeros(r) {
        Ok(SoundReference { reference })
    } else {
        Err(Refusal::ReferenceIllFormed)
    }
}

// The line through two points at a window's mean speed.
#[tactic(auto, using(crate::proofs::Tests::products))]
fn line(a: Point, b: Point, w: Sums) -> CurveAt
    requires { BoundedSums w × (BoundedPoint a × (BoundedPoint b × (tenths a.speed ≤ tenths b.speed))) }
    ensures { (result ≡ line_of a b w) × BoundedCurve result }
{
    let (n, d) = (w.samples, w.distance.0);
    let (p, q) = (u64::from(a.co2), u64::from(b.co2));
    let (from, to) = (u64::from(a.speed.0), u64::from(b.speed.0));
    CurveAt {
        above: p * (to * n) + q * d,
        below: p * d + q * (from * n),
        denominator: (to - from) * n,
    }
}

// The curve at a window's mean speed.
fn curve(r: SoundReference, w: Sums) -> CurveAt
    requires { BoundedSums w }
    ensures { (result ≡ curve_of r.reference w) × BoundedCurve result }
{
    let c = r.reference;
    let middle = Point {
        speed: V2,
        co2: c.c2,
    };
    if w.distance.0 <= u64::from(V2.0) * w.samples {
        let low = Point {
            speed: V1,
            co2: c.c1,
        };
        return line(low, middle, w);
    }
    let high = Point {
        speed: V3,
        co2: c.c3,
    };
    line(middle, high, w)
}

// Whether a window is normal. Nothing wraps: the largest product of a block is the last, 5 × d × height, which is 1,891,588,656,646,845,000, below 2^61, where
// 7,201 samples at 300.0 km/h are one window and c2 is 1 and c3 is 1000 (`BoundedSums`, `BoundedCurve`).
#[tactic(auto, using(crate::proofs::Tests::normal_ways))]
pub fn is_normal(r: SoundReference, w: Sums) -> bool
    requires { BoundedSums w }
    ensures { result ≡ normal_by r.reference w.samples (units w.distance) w.co2 }
{
    let d = w.distance.0;
    let curve = curve(r, w);
    if d == 0 {
        return false;
    }
    if curve.above <= curve.below {
        return false;
    }
    let height = curve.above - curve.below;
    let emitted = 4 * 36 * w.co2 * curve.denominator;
    (3 * d * height <= emitted) & (emitted <= 5 * d * height)
}
