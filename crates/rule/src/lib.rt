// The rules that the number of samples and their tally decide, rules 0 to 14, and the NOx limit.
#![tactic(auto)]

ghost use Rattle.std.specs.Prelude.{◌≡◌, [], ◌∷◌, ◌^◌, ◌≤◌, ◌<◌};
ghost use Rattle.model.specs.Numbers.{outside};
ghost use Rattle.model.specs.Records.{units};
ghost use Rattle.model.specs.Verdicts.{mask};
ghost use Rattle.limits.specs.Table.{most_distance};
ghost use Rattle.limits.specs.Bounds.{BoundedClass};
ghost use Rattle.rule.specs.TallyRules.{exceeded_by, distance_of, share_rule, length_rules, share_rules, distance_rules, urban_rules, count_rules, tally_rules, tally_rule_count};

use limits::TripTally;
use model::{ClassTally, Distance, PerClass, SpeedClass, Tally};

// 16 km, the least distance of a class.
const LEAST_DISTANCE: u64 = 576000;

// Three rules, the lowest bit first: no iterator, each has a weight of its own.
#[tactic(auto, unfolding(model::specs::Verdicts::mask))]
fn bits(a: bool, b: bool, c: bool) -> u32
    ensures { (result ≡ mask (a ∷ b ∷ c ∷ [])) × (result ≤ 7) }
{
    model::bit(a) + 2 * model::bit(b) + 4 * model::bit(c)
}

#[tactic(auto, unfolding(model::specs::Numbers::outside))]
fn outside(low: u64, high: u64, v: u64) -> bool
    ensures { result ≡ outside low high v }
{
    !(low..=high).contains(&v)
}

// Rules 0 and 1.
#[tactic(auto, unfolding(model::specs::Verdicts::mask))]
fn length_rules(n: usize) -> u32
    ensures { (result ≡ mask (length_rules n)) × (result ≤ 3) }
{
    model::bit(n < 5400) + 2 * model::bit(7200 < n)
}

// D, each class named: a sum is no plainer over a `PerClass`.
fn total_distance(t: TripTally) -> Distance
    ensures { (result ≡ distance_of t.tally) × (units result ≤ most_distance) }
{
    let k = t.tally.classes;
    Distance(k.urban.distance.0 + k.rural.distance.0 + k.motorway.distance.0)
}

// Whether a class's share is outside its limits. A class, its tally and `BoundedClass`: as at limits::limit_of.
#[tactic(auto, using(limits::specs::Table::share_most))]
fn share_outside(c: SpeedClass, t: ClassTally, total: Distance) -> bool
    requires { BoundedClass t × (units total ≤ most_distance) }
    ensures { result ≡ share_rule c t total }
{
    let share = limits::share_of(c);
    outside(
        share.low * total.0,
        share.high * total.0,
        100 * t.distance.0,
    )
}

// Rules 2, 3 and 4.
fn share_rules(t: TripTally) -> u32
    ensures { (result ≡ mask (share_rules t.tally)) × (result ≤ 7) }
{
    let d = total_distance(t);
    let outside = PerClass::of(|c| share_outside(c, t.tally.classes.get(c), d));
    bits(outside.urban, outside.rural, outside.motorway)
}

// Rules 5, 6 and 7, of a `Tally`: no bound is needed.
fn distance_rules(t: Tally) -> u32
    ensures { (result ≡ mask (distance_rules t)) × (result ≤ 7) }
{
    let short = PerClass::of(|c| t.classes.get(c).distance.0 < LEAST_DISTANCE);
    bits(short.urban, short.rural, short.motorway)
}

// Rules 8, 9 and 10.
fn urban_rules(t: TripTally) -> u32
    ensures { (result ≡ mask (urban_rules t.tally)) × (result ≤ 7) }
{
    let urban = t.tally.classes.urban;
    let n = urban.samples;
    bits(
        outside(6 * n, 30 * n, 100 * t.tally.stops),
        outside(150 * n, 400 * n, urban.distance.0),
        t.tally.over100 < 300,
    )
}

// Rules 11 to 14.
#[tactic(auto, unfolding(model::specs::Verdicts::mask))]
fn count_rules(t: TripTally) -> u32
    ensures { (result ≡ mask (count_rules t.tally)) × (result ≤ 15) }
{
    bits(
        0 < t.tally.over160,
        3 * t.tally.classes.motorway.samples < 100 * t.tally.over145,
        0 < t.tally.temperature,
    ) + 8 * model::bit(0 < t.tally.altitude)
}

// Rules 0 to 14 of n samples with this tally, bit k for rule k.
#[tactic(auto, unfolding(model::specs::Verdicts::mask, crate::specs::TallyRules::tally_rules))]
pub fn tally_rules(n: usize, t: TripTally) -> u32
    ensures { (result ≡ mask (tally_rules n t.tally)) × (result < 2 ^ tally_rule_count) }
{
    length_rules(n)
        + 4 * share_rules(t)
        + 32 * distance_rules(t.tally)
        + 256 * urban_rules(t)
        + 2048 * count_rules(t)
}

// NOx above 80 mg/km, that of extended samples at five eighths, without rounding.
#[tactic(auto, using(std::proofs::lemmas::Int::ints), unfolding(model::specs::Verdicts::exceeds_limit))]
pub fn exceeded(t: TripTally) -> bool
    ensures { result ≡ exceeded_by t.tally }
{
    let d = total_distance(t);
    if d.0 == 0 {
        return false;
    }
    ((640000 * d.0) as i64) < 1586 * extended::weighted(t.tally.nox, t.tally.extended)
}
