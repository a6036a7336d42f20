// A reference whose values are within their ranges, as those of every record that is accepted are.
#![tactic(auto)]

ghost use Rattle.std.specs.Prelude.{◌≡◌, true};
ghost use Rattle.model.specs.Co2Windows.{reference_in_range};

use model::Reference;

#[derive(Clone, Copy)]
pub struct SoundReference {
    pub reference: Reference,
    pub ghost sound: { reference_in_range reference ≡ true },
}
