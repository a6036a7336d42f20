// Extended conditions: whether a sample was taken in them, and U with such samples at five eighths.
#![tactic(auto)]

ghost use Rattle.std.specs.Prelude.{◌||◌, ◌≡◌, ◌≤◌, nat_abs};
ghost use Rattle.model.specs.Numbers.{bit};
ghost use Rattle.model.specs.Verdicts.{extended_temperature, extended_altitude, is_extended, weighted};
ghost use Rattle.limits.specs.Bounds.{most_nox};
ghost use Rattle.extended.specs.Bounds.{most_weighted};

use model::{HIGHEST_ALTITUDE, HIGHEST_TEMPERATURE, LOWEST_TEMPERATURE, Sample};

// Whether the temperature makes a sample extended, whatever the altitude is. Two comparisons a range: `contains` of a range says no more.
#[tactic(auto, unfolding(model::specs::Verdicts::extended_temperature, model::specs::Numbers::within))]
fn by_temperature(t: u16) -> bool
    ensures { result ≡ extended_temperature t }
{
    let cold = (LOWEST_TEMPERATURE <= t) & (t <= 2729);
    let warm = (3031 <= t) & (t <= HIGHEST_TEMPERATURE);
    cold | warm
}

// Whether the altitude does, whatever the temperature is.
#[tactic(auto, unfolding(model::specs::Verdicts::extended_altitude))]
fn by_altitude(a: i16) -> bool
    ensures { result ≡ extended_altitude a }
{
    (700 < a) & (a <= HIGHEST_ALTITUDE)
}

// 1 where one condition is met, or both; 0 where none is. A number and no bool: that both do not count twice is what it promises.
fn once(temperature: bool, altitude: bool) -> u32
    ensures { (result ≡ bit (temperature || altitude)) × (result ≤ 1) }
{
    model::bit(temperature | altitude)
}

// How often a sample counts in extended U: once, or not at all.
#[tactic(auto, unfolding(model::specs::Verdicts::is_extended))]
pub fn times(s: Sample) -> u32
    ensures { (result ≡ bit (is_extended s)) × (result ≤ 1) }
{
    once(by_temperature(s.temperature), by_altitude(s.altitude))
}

// Eight times U, with its extended part at five eighths.
pub fn weighted(nox: i64, extended: i64) -> i64
    requires { (nat_abs nox ≤ most_nox) × (nat_abs extended ≤ most_nox) }
    ensures { (result ≡ weighted nox extended) × (nat_abs result ≤ most_weighted) }
{
    8 * (nox - extended) + 5 * extended
}
