// The trip dynamics: the speeds by second, the walk over them, and rules 15 to 20, which go by what it counts.
#![tactic(auto)]

ghost use Rattle.std.specs.Prelude.{◌≡◌, ◌+◌, ◌*◌, ◌≤◌, length};
ghost use Rattle.model.specs.Verdicts.{mask};
ghost use Rattle.power.specs.Speeds.{speeds_of, Appended};
ghost use Rattle.power.specs.Counts.{limits_of, counts_of, CountedTo};
ghost use Rattle.power.specs.Dynamics.{power_rule, class_mask, dynamics_rules};

mod speeds;

use acceleration::{Counts, Power};
use limits::{PowerLimit, TripTally};
use model::{PerClass, Speed, SpeedClass};
pub use speeds::Speeds;

// The speed of second n goes after the first n.
// It writes at a place: so it takes the bytes, and not `Speeds`.
#[tactic(auto, using(field::specs::Cells::numbers_push))]
pub fn append_speed(speeds: &mut [u8], n: usize, v: Speed)
    requires { 2 * n + 2 ≤ length speeds.old }
    ensures { Appended n v speeds.old speeds.new }
{
    field::put(speeds, 2 * n, v.0);
}

// The limits of a trip's classes: the one place that asks for them, each by name and not by PerClass::of (tests/limit_side.py).
#[tactic(auto, unfolding(crate::specs::Counts::limits_of))]
fn limits_of(t: TripTally) -> PerClass<PowerLimit>
    ensures { result ≡ limits_of t.tally }
{
    PerClass {
        urban: limits::limit_of(SpeedClass::Urban, t.tally.classes.urban),
        rural: limits::limit_of(SpeedClass::Rural, t.tally.classes.rural),
        motorway: limits::limit_of(SpeedClass::Motorway, t.tally.classes.motorway),
    }
}

// The counts of second 0, before which there is no speed.
#[tactic(auto, using(crate::specs::Counts::counted_none, acceleration::specs::Sample::most_more))]
fn count_first(speeds: Speeds, b: PerClass<Power>) -> Counts
    requires { 2 ≤ speeds.n }
    ensures { CountedTo b (speeds_of speeds.entry.bytes.now speeds.entry.n) 1 result }
{
    let v = speeds.at(0);
    let rise = acceleration::rise_of(speeds.at(1), Speed(0));
    acceleration::count_sample(acceleration::no_counts(), b, v, rise)
}

// The counts of the speeds: one pass, with no test but the loop's own. The last sample is never accelerating, since no speed comes after it.
#[tactic(auto, using(crate::specs::Counts::counted_next, crate::specs::Speeds::before_later, acceleration::specs::Sample::most_more))]
fn count_samples(speeds: Speeds, b: PerClass<Power>) -> Counts
    ensures { CountedTo b (speeds_of speeds.entry.bytes.now speeds.entry.n) speeds.entry.n result }
{
    if speeds.n < 2 {
        return acceleration::no_counts();
    }
    let last = speeds.n - 1;
    let mut k = count_first(speeds, b);
    for i in 1..last {
        let v = speeds.at(i);
        let rise = acceleration::rise_of(speeds.at(i + 1), speeds.at(i - 1));
        k = acceleration::count_sample(k, b, v, rise);
    }
    k
}

// P95 is beyond the line: too few are not.
fn power_beyond(accelerating: u16, within: u16) -> bool
    ensures { result ≡ power_rule accelerating within }
{
    100 * u32::from(within) < 95 * u32::from(accelerating)
}

// The two rules of one class, three places apart.
fn class_mask(accelerating: u16, within: u16) -> u32
    ensures { (result ≡ class_mask accelerating within) × (result ≤ 9) }
{
    model::bit(accelerating < 150) + 8 * model::bit(power_beyond(accelerating, within))
}

// Rules 15 to 20 by the counts, rule 15 the lowest bit. No iterator over the classes: each has a weight of its own.
#[tactic(auto, unfolding(model::specs::Verdicts::mask, crate::specs::Dynamics::dynamics_rules))]
fn counted_rules(k: Counts) -> u32
    ensures { (result ≡ mask (dynamics_rules k)) × (result ≤ 63) }
{
    let a = k.accelerating;
    let w = k.within;
    class_mask(a.urban, w.urban)
        + 2 * class_mask(a.rural, w.rural)
        + 4 * class_mask(a.motorway, w.motorway)
}

// Rules 15 to 20 of the trip with these speeds, whose tally is t; rule 15 is the lowest bit.
pub fn dynamics_rules(speeds: Speeds, t: TripTally) -> u32
    ensures { (result ≡ mask (dynamics_rules (counts_of (limits_of t.tally) (speeds_of speeds.entry.bytes.now speeds.entry.n) speeds.entry.n))) × (result ≤ 63) }
{
    counted_rules(count_samples(speeds, acceleration::bounds_of(limits_of(t))))
}
