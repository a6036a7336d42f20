// An average: a sum by a count, rounded to the nearest, of two as near the even one. Nothing wraps, whatever the sum.
#![tactic(auto)]

ghost use Rattle.std.specs.Prelude.{not, ◌≡◌, ◌<◌, pos};
ghost use Rattle.model.specs.Numbers.{floor_mod, even, round_half_even};

// What the floor leaves of sum. The floor times count is not made: it may be beyond an i64.
#[tactic(auto, using(crate::specs::Floor::rest_euclid, crate::specs::Floor::rest_is, crate::specs::Floor::rest_less))]
fn floor_mod(sum: i64, count: u32) -> u64
    requires { 0 < count }
    ensures { (pos result ≡ floor_mod sum count) × (result < count) }
{
    sum.rem_euclid(i64::from(count)) as u64
}

#[tactic(auto, using(crate::specs::Floor::half_fits, crate::specs::Floor::even_is))]
fn is_odd(z: i64) -> bool
    ensures { result ≡ not (even z) }
{
    z % 2 != 0
}

// The whole number nearest to sum by count, of two as near the even one: one above the floor where twice what it leaves is more than
// count, or is count and the floor is odd.
#[tactic(auto, using(std::proofs::lemmas::Bool::Decides::nat_tests, crate::specs::Floor::floor_euclid, crate::specs::Floor::rest_is, crate::specs::Floor::round_is, crate::specs::Floor::next_fits))]
pub fn round_half_even(sum: i64, count: u32) -> i64
    requires { 0 < count }
    ensures { result ≡ round_half_even sum count }
{
    let floor = sum.div_euclid(i64::from(count));
    let twice = 2 * floor_mod(sum, count);
    let up = if twice == u64::from(count) {
        is_odd(floor)
    } else {
        u64::from(count) < twice
    };
    if up { floor + 1 } else { floor }
}
