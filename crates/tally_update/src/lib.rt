// A tally in its bytes is brought up to date by a sample, in place, whatever the bytes are. Of a count or a distance the low four bytes are read, so that
// adding cannot wrap; U and extended U are read whole, and may wrap where the tally is not sound.
#![tactic(auto)]

ghost use Rattle.std.specs.Prelude.{◌≡◌, ◌+◌, ◌*◌, ◌^◌, ◌≤◌, ◌<◌, length};
ghost use Rattle.model.specs.Numbers.{unsigned};
ghost use Rattle.model.specs.Tallies.{words};
ghost use Rattle.laws.specs.Lists.{All};
ghost use Rattle.field.specs.Le.{put_le};
ghost use Rattle.field.specs.Part.{put};
ghost use Rattle.class_tally.specs.Add.{SmallClass};
ghost use Rattle.tally_update.specs.Raised.{raised, raised_sum, low_class, class_numbers, Added};

use model::{ClassTally, Distance, PerClass, Sample, SpeedClass, TALLY_LEN};

// Where the distances of the classes, the counts, U and extended U stand.
const DISTANCES: usize = 8 * 3;

const COUNTS: usize = 8 * 6;

const NOX: usize = 8 * 12;

const EXTENDED: usize = NOX + 8;

// The numbers at `at`, each of its low four bytes, with those of ns added. Not one with tally_bytes::put_words, which reads nothing.
#[tactic(auto, using(field::specs::Part::put_nil, crate::proofs::Raising::raise_step), unfolding(model::specs::Tallies::words))]
fn raise(b: &mut [u8], at: usize, ns: &[u64])
    requires { (at + 8 * length ns.now ≤ length b.old) × All (λ n. n < 2 ^ 62) ns.now }
    ensures { b.new ≡ put b.old at (words (raised b.old at ns.now)) }
{
    for (i, n) in ns.iter().enumerate() {
        let low = u64::from(field::get::<u32>(b, at + 8 * i));
        field::put(b, at + 8 * i, low + *n);
    }
}

// The sum at `at` with z added.
#[tactic(auto, using(std::proofs::lemmas::Int::wrapping_add_onto), unfolding(crate::specs::Raised::raised_sum))]
fn raise_sum(b: &mut [u8], at: usize, z: i64)
    requires { at + 8 ≤ length b.old }
    ensures { b.new ≡ put_le 8 b.old at (unsigned 8 (raised_sum b.old at z)) }
{
    let sum: i64 = field::get(b, at);
    field::put(b, at, sum.wrapping_add(z));
}

// The tally of a class, of low numbers. Not one with tally_bytes::class_at: those are whole numbers, and without the bound that adding asks.
fn low_class(b: &[u8; TALLY_LEN], c: SpeedClass) -> ClassTally
    ensures { (result ≡ low_class b.now c) × SmallClass result }
{
    let k = c as usize;
    ClassTally {
        samples: u64::from(field::get::<u32>(b, 8 * k)),
        distance: Distance(u64::from(field::get::<u32>(b, DISTANCES + 8 * k))),
    }
}

// Each class tally is brought up to date by the sample.
fn add_classes(b: &mut [u8; TALLY_LEN], s: Sample)
    ensures { b.new ≡ put b.old 0 (words (class_numbers b.old s)) }
{
    let k = PerClass::of(|c| class_tally::add_class(c, low_class(b, c), s));
    tally_bytes::put_words(b, 0, &tally_bytes::class_numbers(k));
}

// A sample is added to the tally whose bytes these are, where that is sound.
#[tactic(auto, unfolding(laws::specs::Lists::All))]
pub fn add(b: &mut [u8; TALLY_LEN], s: Sample)
    ensures { Added s b.old b.new }
{
    add_classes(b, s);
    // its class tallies are not needed: add_classes has added them
    let u = tally::one(s);
    let ns = [
        u.stops,
        u.over100,
        u.over145,
        u.over160,
        u.temperature,
        u.altitude,
    ];
    raise(b, COUNTS, &ns);
    raise_sum(b, NOX, u.nox);
    raise_sum(b, EXTENDED, u.extended);
}
