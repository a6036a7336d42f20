// A sample whose turn it is goes into every part of the state area. Safe on any bytes; more windows than any list of calls leaves are refused.
// specs/Effects.antt says what is promised, specs/Damaged.antt has the laws of the areas that stand for no trip.
#![tactic(auto)]

ghost use Rattle.model.specs.Answers.{answer_of};
ghost use Rattle.std.specs.Prelude.{◌≤◌, ◌<◌};
ghost use Rattle.model.specs.Records.{max_samples, max_windows};
ghost use Rattle.area.specs.Layout.{parts_of};
ghost use Rattle.taking.specs.Effects.{TakenSound, Taking, Accepts};

use area::{Area, Head};
use model::{MAX_WINDOWS, RECORD_LEN, Refusal, Sample};

// The sample of second n and its record go into every part of the area. step_windows and append_speed ask for the bounds of k and n too, on this one
// way: a type for each would be made here and used there alone.
fn store(area: &mut Area, record: &[u8; RECORD_LEN], s: Sample, n: u32, k: u32)
    requires { (k ≤ max_windows) × (n < max_samples) }
    ensures { TakenSound k n «record».now s (parts_of area.old) (parts_of area.new) }
{
    area::add_sample(area, s);
    area_windows::step_windows(area, k as usize, n as u16, record);
    area::append_speed(area, n as usize, s.speed);
    area::keep_altitude(area, n as usize, s.altitude);
    area::set_number(area, Head::Samples, n + 1);
}

// Takes a sample whose turn it is and answers the moves made so far. Inlined, as the record's reading is. `store` is called: inlined behind a sample's
// many tests, what it calls is taken for rare by LLVM, and a sample without windows takes 21.9 ns for 19.5.
#[inline(always)]
pub fn take(area: &mut Area, record: &[u8; RECORD_LEN], s: Sample, n: u32) -> Result<i64, Refusal>
    requires { Taking (parts_of area.old) «record».now s n }
    ensures { Accepts «record».now n area.old (answer_of result) area.new }
{
    let k = area::number(area, Head::Windows);
    if MAX_WINDOWS < k {
        return Err(Refusal::AreaDamaged);
    }
    store(area, record, s, n, k);
    Ok(area_windows::moves(area))
}
