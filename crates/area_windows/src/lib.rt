// The windows of the state area: a function for each thing that is done to the part `slots`, by crates window, reading and slots.
#![tactic(auto)]

ghost use Rattle.std.specs.Prelude.{◌≡◌, [], ◌<◌, ◌≤◌};
ghost use Rattle.model.specs.Records.{max_samples, max_windows};
ghost use Rattle.reading.specs.Read.{Reads};
ghost use Rattle.window.specs.Stand as window;
ghost use Rattle.window.specs.Sweep.{Stepped, Added};
ghost use Rattle.area.specs.Layout.{slots_part, parts_of, slots_in};
ghost use Rattle.area.specs.Effects.{Changed};
ghost use Rattle.area_windows.specs.Effects.{CountedMoves};

use area::Area;
use model::RECORD_LEN;
use slots::{Part, Slot};

// The windows take the sample of second n. Each function that writes takes the part by itself: Rattle proves of no function that it lends a `&mut` part
// of an array.
pub fn step_windows(area: &mut Area, k: usize, n: u16, record: &[u8; RECORD_LEN])
    requires { (k ≤ max_windows) × (n < max_samples) }
    ensures { Changed slots_part (Stepped k n «record».now) (parts_of area.old) (parts_of area.new) }
{
    let Some(part) = area.last_chunk_mut() else {
        unreachable!()
    };
    window::step(part, k, n, record);
}

pub fn add_window(area: &mut Area, k: Slot, record: &[u8; RECORD_LEN])
    ensures { Changed slots_part (Added k.number «record».now) (parts_of area.old) (parts_of area.new) }
{
    let Some(part) = area.last_chunk_mut() else {
        unreachable!()
    };
    window::declare(part, k, record);
}

// No windows and no moves, whatever the bytes were.
pub fn clear_windows(area: &mut Area)
    ensures { Changed slots_part (λ _. window.Stands [] []) (parts_of area.old) (parts_of area.new) }
{
    let Some(part) = area.last_chunk_mut() else {
        unreachable!()
    };
    window::clear(part);
}

// The windows' part is the last of the area.
fn part(area: &Area) -> &Part
    ensures { result.now ≡ slots_in (parts_of area.now) }
{
    area.last_chunk().unwrap()
}

// What window k reads; none where no sample in it qualifies.
pub fn read_window(area: &Area, k: Slot) -> Option<i64>
    ensures { Reads k.number (slots_in (parts_of area.now)) result }
{
    reading::read(part(area), k)
}

// The moves counted since the last clear.
pub fn moves(area: &Area) -> i64
    ensures { CountedMoves (parts_of area.now) result }
{
    i64::try_from(slots::moves(part(area))).unwrap_or(0)
}
