// The tally of a trip: no product of a rule's numbers wraps.
#![tactic(auto)]

ghost use Rattle.limits.specs.Bounds.{BoundedTally};

use model::Tally;

#[derive(Clone, Copy)]
pub struct TripTally {
    pub tally: Tally,
    pub ghost bounded: { BoundedTally tally },
}
