// The speeds of a trip by second, as they are stored.
#![tactic(auto)]

ghost use Rattle.std.specs.Prelude.{◌≡◌, ◌*◌, ◌^◌, ◌≤◌, ◌<◌, length};
ghost use Rattle.model.specs.Records.{max_samples, tenths};
ghost use Rattle.power.specs.Speeds.{speeds_of, speed_in};

use model::Speed;

// The speeds of the first n seconds, two bytes each. n is no length alone, by which the bytes could be cut: it is the trip's number of samples, which
// other rules ask for too.
#[derive(Clone, Copy)]
pub struct Speeds<'a> {
    pub bytes: &'a [u8],
    pub n: usize,
    pub ghost within: { (2 * n ≤ length bytes.now) × (n ≤ max_samples) },
}

impl<'a> Speeds<'a> {
    // The speed of second i.
    #[tactic(auto, using(field::specs::Cells::numbers_at), unfolding(crate::specs::Speeds::speed_in))]
    pub(crate) fn at(self, i: usize) -> Speed
        requires { i < self.n }
        ensures { (result ≡ speed_in (speeds_of self.entry.bytes.now self.entry.n) i) × (tenths result < 2 ^ 16) }
    {
        Speed(field::get(self.bytes, 2 * i))
    }
}
