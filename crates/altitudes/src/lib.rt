// The altitudes of a trip's first sample and of its last, which is the latest so far: kept in a part of the state area, and rule 21, which they decide.
#![tactic(auto)]

ghost use Rattle.std.specs.Prelude.{◌≡◌, length};
ghost use Rattle.model.specs.Rules.{apart};
ghost use Rattle.altitudes.specs.Ends.{ends_len, ends_from, Kept, ends_rule};

// Bytes of an altitude, an i32.
const ALTITUDE_LEN: usize = 4;

// Where that of the first sample stands, where that of the last, and the bytes of both.
const FIRST: usize = 0;

const LAST: usize = FIRST + ALTITUDE_LEN;

pub const ENDS_LEN: usize = LAST + ALTITUDE_LEN;

// The altitudes of the first and of the last sample, in metres.
#[derive(Clone, Copy)]
pub struct Ends {
    pub first: i32,
    pub last: i32,
}

// The least difference, in metres, that breaks rule 21.
const TOO_FAR: u32 = 101;

// What the part holds; any bytes mean two numbers.
#[tactic(auto, unfolding(crate::specs::Ends::ends_from))]
pub fn read(part: &[u8]) -> Ends
    requires { length part.now ≡ ends_len }
    ensures { result ≡ ends_from part.now }
{
    Ends {
        first: field::get(part, FIRST),
        last: field::get(part, LAST),
    }
}

// The altitude of second n becomes the last, that of second 0 also the first.
#[tactic(auto, using(std::proofs::lemmas::Int::ints, crate::proofs::Answers::kept_later, crate::proofs::Answers::kept_first))]
pub fn keep(part: &mut [u8], n: usize, altitude: i16)
    requires { length part.old ≡ ends_len }
    ensures { Kept n altitude part.old part.new }
{
    let z = i32::from(altitude);
    field::put(part, LAST, z);
    if n != 0 {
        return;
    }
    field::put(part, FIRST, z);
}

// Two altitudes that differ by 101 m or more, in either sense.
#[tactic(auto, unfolding(model::specs::Rules::apart))]
fn apart(a: i32, b: i32) -> bool
    ensures { result ≡ apart a b }
{
    TOO_FAR <= b.abs_diff(a)
}

// Rule 21 of n samples with these altitudes; without a sample there are none. n is the trip's own number, no flag of the altitudes.
#[tactic(auto, unfolding(crate::specs::Ends::ends_rule))]
pub fn ends_rule(n: usize, e: Ends) -> bool
    ensures { result ≡ ends_rule n e }
{
    if n == 0 {
        return false;
    }
    apart(e.first, e.last)
}
