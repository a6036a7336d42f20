// One sample of the walk over the speeds: whether it is accelerating, in which class, and whether its P is beyond the class's line. Each test is
// counted as a number, 0 or 1, so that the compiled walk has no branch on the data and takes several samples at a time.
#![tactic(auto)]

ghost use Rattle.std.specs.Prelude.{◌≡◌, Bool, ◌*◌};
ghost use Rattle.model.specs.declared.SpeedClass.{SpeedClass};
ghost use Rattle.model.specs.Records.{max_samples, tenths};
ghost use Rattle.acceleration.specs.Bound.{BoundOf, BoundsOf};
ghost use Rattle.acceleration.specs.Sample.{acceleration_of, rise_of, accelerates, within, Most, MostCounts, raised, counted, no_counts};

use limits::PowerLimit;
use model::{PerClass, Speed, SpeedClass};

// Next speed − previous speed, in tenths of km/h.
#[derive(Clone, Copy)]
pub struct Acceleration(pub i64);

// The acceleration where the speed rises, else 0.
#[derive(Clone, Copy)]
pub struct Rise(pub u16);

// Speed × rise: P of an accelerating sample.
#[derive(Clone, Copy)]
pub struct Power(pub u32);

// The accelerating samples, and those of them whose P is not beyond the line. Of three fields each: a struct of two or four u16 is copied as one
// number, and the walk is then not vectorised.
#[derive(Clone, Copy)]
pub struct Counts {
    pub accelerating: PerClass<u16>,
    pub within: PerClass<u16>,
}

// From this rise on a sample is accelerating.
const LEAST_RISE: u16 = 8;

// The largest P that is not beyond a limit; the largest u32 where none is beyond it, since no P is above that.
fn bound_of(limit: PowerLimit) -> Power
    ensures { BoundOf limit result }
{
    if limit.factor == 0 {
        return Power(u32::MAX);
    }
    Power(u32::try_from(limit.side / limit.factor).unwrap_or(u32::MAX))
}

// The largest P that is not beyond the line, for each class.
pub fn bounds_of(limits: PerClass<PowerLimit>) -> PerClass<Power>
    ensures { BoundsOf limits result }
{
    PerClass::of(|c| bound_of(limits.get(c)))
}

fn acceleration_of(next: Speed, previous: Speed) -> Acceleration
    ensures { result.0 ≡ acceleration_of next previous }
{
    Acceleration(i64::from(next.0) - i64::from(previous.0))
}

// The speeds are compared, and not A with 0, so that the compiled walk keeps to 16 bits. By A, and not by `saturating_sub`: signed accelerations are a
// form that the project asks for.
pub fn rise_of(next: Speed, previous: Speed) -> Rise
    ensures { result ≡ rise_of next previous }
{
    let a = acceleration_of(next, previous);
    if next.0 <= previous.0 {
        return Rise(0);
    }
    Rise(a.0 as u16)
}

fn power_of(v: Speed, rise: Rise) -> Power
    ensures { result.0 ≡ tenths v * rise.0 }
{
    Power(u32::from(v.0) * u32::from(rise.0))
}

// Whether a sample is an accelerating one of the class.
#[tactic(auto, unfolding(crate::specs::Sample::accelerates))]
fn accelerates_in(c: SpeedClass, v: Speed, rise: Rise) -> bool
    ensures { result ≡ accelerates c v rise }
{
    limits::in_class(c, v) & (LEAST_RISE <= rise.0)
}

// Whether it is one whose P is not above the bound.
#[tactic(auto, unfolding(crate::specs::Sample::within))]
fn within_in(c: SpeedClass, bound: Power, v: Speed, rise: Rise) -> bool
    ensures { result ≡ within c bound v rise }
{
    let p = power_of(v, rise);
    accelerates_in(c, v, rise) & (p.0 <= bound.0)
}

// One more in each class for which the test holds.
fn raise<F: Fn(SpeedClass) -> bool>(k: PerClass<u16>, test: F) -> PerClass<u16>
    requires { Most max_samples k × ((c : SpeedClass) → F.pre test c) }
    ensures { (t : SpeedClass → Bool) → ((c : SpeedClass) (b : Bool) → F.post test c b → b ≡ t c) → result ≡ raised k t }
{
    PerClass::of(|c| k.get(c) + u16::from(test(c)))
}

// The counts with one sample more, which counts in its class if it is accelerating.
#[tactic(auto, unfolding(crate::specs::Sample::counted))]
pub fn count_sample(k: Counts, b: PerClass<Power>, v: Speed, rise: Rise) -> Counts
    requires { MostCounts max_samples k }
    ensures { result ≡ counted b k v rise }
{
    Counts {
        accelerating: raise(k.accelerating, |c| accelerates_in(c, v, rise)),
        within: raise(k.within, |c| within_in(c, b.get(c), v, rise)),
    }
}

pub fn no_counts() -> Counts
    ensures { result ≡ no_counts }
{
    let none = PerClass::of(|_| 0);
    Counts {
        accelerating: none,
        within: none,
    }
}
