// The verdict of a trip: the mask of all rules, and the finding.
#![tactic(auto)]

ghost use Rattle.std.specs.Prelude.{◌≡◌, Bool, List, ◌*◌, ◌≤◌, length};
ghost use Rattle.model.specs.declared.Sample.{Sample};
ghost use Rattle.model.specs.Records.{max_samples};
ghost use Rattle.model.specs.Tallies.{tally_of};
ghost use Rattle.model.specs.Verdicts.{mask, finding as finding_of, verdict_of};
ghost use Rattle.power.specs.Speeds.{speeds_of, Stored};
ghost use Rattle.altitudes.specs.Ends.{EndsOf};
ghost use Rattle.verdict.specs.Judged.{mask_bits, broken_by};

use altitudes::Ends;
use limits::TripTally;
use model::{Finding, Verdict};
use power::Speeds;
use tally::SoundTally;

// The bit of rule 15, the first that the walk over the speeds decides.
const DYNAMICS: u32 = 32768;

// The bit of rule 21, behind the six of the walk.
const ENDS: u32 = 64 * DYNAMICS;

// The mask of all rules, bit k for rule k.
#[tactic(auto, unfolding(model::specs::Verdicts::mask, crate::specs::Judged::broken_by, power::specs::Dynamics::dynamics_rules, rule::specs::TallyRules::tally_rules))]
fn broken(t: TripTally, speeds: Speeds, e: Ends) -> u32
    ensures { result ≡ mask (broken_by t.tally (speeds_of speeds.entry.bytes.now speeds.entry.n) speeds.entry.n e) }
{
    rule::tally_rules(speeds.n, t)
        + DYNAMICS * power::dynamics_rules(speeds, t)
        + ENDS * model::bit(altitudes::ends_rule(speeds.n, e))
}

// The lowest broken rule; else exceeded; else clean.
#[tactic(auto, using(crate::specs::Judged::first_rule, crate::specs::Judged::none_set))]
fn finding(broken: u32, exceeded: bool) -> Finding
    ensures { (bs : List Bool) → length bs ≤ mask_bits → broken ≡ mask bs → result ≡ finding_of 0 bs exceeded }
{
    if broken != 0 {
        return Finding::Rule(broken.trailing_zeros());
    }
    if exceeded {
        return Finding::Exceeded;
    }
    Finding::Clean
}

// The verdict on the samples with this tally, these first n speeds and these altitudes of the first and the last of them. The area lends its bytes:
// they and n become a `Speeds` here, at one place; made in the area, it would take the same clause there.
pub fn verdict(t: SoundTally, speeds: &[u8], n: usize, e: Ends) -> Verdict
    requires { (2 * n ≤ length speeds.now) × (n ≤ max_samples) }
    ensures { (ss : List Sample) → t.tally ≡ tally_of ss → Stored speeds.now n ss → EndsOf ss e → result ≡ verdict_of ss }
{
    let trip = TripTally { tally: t.tally };
    let b = broken(trip, Speeds { bytes: speeds, n }, e);
    let over = rule::exceeded(trip);
    Verdict {
        broken: b,
        exceeded: over,
        finding: finding(b, over),
    }
}
