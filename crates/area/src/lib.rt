// The state area: where its parts stand, and a function for each thing that is done to one part; crate area_windows has those of the part `slots`.
// specs/Layout.antt has the list of the parts.
#![tactic(auto)]

ghost use Rattle.std.specs.Prelude.{true, false, ◌≡◌, ◌≢◌, ◌≤◌, ◌<◌, length};
ghost use Rattle.model.specs.Numbers.{le_val};
ghost use Rattle.model.specs.Records.{max_samples};
ghost use Rattle.model.specs.Tallies.{tally_length, tally_bytes, tally_from};
ghost use Rattle.power.specs.Speeds.{Appended};
ghost use Rattle.altitudes.specs.Ends.{Kept};
ghost use Rattle.tally_update.specs.Raised.{Added};
ghost use Rattle.area.specs.Layout.{tally_part, altitudes_part, speeds_part, parts_of, with, closed_mark, tally_in};
ghost use Rattle.area.specs.Head.{part_of};
ghost use Rattle.area.specs.Stands.{Judges};
ghost use Rattle.area.specs.Effects.{Changed, Numbered};

use model::{MAX_SAMPLES, Sample, Speed, TALLY_LEN, Tally, Verdict};
use tally::SoundTally;

// Bytes of a number of the head.
const NUMBER_LEN: usize = 4;

// The numbers of the head, in their order: the samples, the closed mark (0 where the trip is open), the windows and the format mark.
#[derive(Clone, Copy)]
pub enum Head {
    Samples,
    Mark,
    Windows,
    Format,
}

// The mark of an area of this format: the bytes "RDE3". It changes with the layout and with what the bytes mean.
pub const FORMAT: u32 = 0x3345_4452;

// The parts behind the head, each behind the one before it.
const HEAD_LEN: usize = 64;

const TALLY: usize = HEAD_LEN;

const ALTITUDES: usize = TALLY + TALLY_LEN;

const SPEEDS: usize = ALTITUDES + altitudes::ENDS_LEN;

pub const SLOTS: usize = SPEEDS + 2 * (MAX_SAMPLES as usize + 1);

// Bytes of the state area.
pub const AREA_LEN: usize = SLOTS + slots::PART_LEN;

// The state area.
pub type Area = [u8; AREA_LEN];

pub fn number(area: &Area, which: Head) -> u32
    ensures { result ≡ le_val (parts_of area.now (part_of which)) }
{
    field::get(area, NUMBER_LEN * which as usize)
}

// The closed mark is a u32 like the others and no bool, which would ask more of callers.
pub fn set_number(area: &mut Area, which: Head, n: u32)
    ensures { Numbered (part_of which) n (parts_of area.old) (parts_of area.new) }
{
    field::put(area, NUMBER_LEN * which as usize, n);
}

// The trip is closed.
pub fn is_closed(area: &Area) -> bool
    ensures closed { result ≡ true → closed_mark (parts_of area.now) ≢ 0 }
    ensures open { result ≡ false → closed_mark (parts_of area.now) ≡ 0 }
{
    number(area, Head::Mark) != 0
}

pub fn read_tally(area: &Area) -> Tally
    ensures { result ≡ tally_from (tally_in (parts_of area.now)) }
{
    let Some(tally) = area[TALLY..ALTITUDES].as_array() else {
        unreachable!()
    };
    tally_bytes::read(tally)
}

pub fn write_tally(area: &mut Area, t: Tally)
    ensures { parts_of area.new ≡ with tally_part (tally_bytes t) (parts_of area.old) }
{
    tally_bytes::write(t, area, TALLY);
}

fn add_to(tally: &mut [u8], s: Sample)
    requires { length tally.old ≡ tally_length }
    ensures { Added s tally.old tally.new }
{
    let Some(tally) = tally.as_mut_array() else {
        unreachable!()
    };
    tally_update::add(tally, s);
}

// The sample is added to the tally, where that is sound. By a function of its own: what is written to an array within a part of the area is not known
// once its loan ends.
pub fn add_sample(area: &mut Area, s: Sample)
    ensures { Changed tally_part (Added s) (parts_of area.old) (parts_of area.new) }
{
    add_to(&mut area[TALLY..ALTITUDES], s);
}

// The altitude of second n becomes the latest, that of second 0 also the first.
pub fn keep_altitude(area: &mut Area, n: usize, altitude: i16)
    ensures { Changed altitudes_part (Kept n altitude) (parts_of area.old) (parts_of area.new) }
{
    altitudes::keep(&mut area[ALTITUDES..SPEEDS], n, altitude);
}

// The speed of second n goes after the first n.
pub fn append_speed(area: &mut Area, n: usize, v: Speed)
    requires { n < max_samples }
    ensures { Changed speeds_part (Appended n v) (parts_of area.old) (parts_of area.new) }
{
    power::append_speed(&mut area[SPEEDS..SLOTS], n, v);
}

// The verdict on the n samples of which the area holds what they come to, with this tally.
pub fn judge(area: &Area, t: SoundTally, n: usize) -> Verdict
    requires { n ≤ max_samples }
    ensures { Judges (parts_of area.now) t.tally n result }
{
    let e = altitudes::read(&area[ALTITUDES..SPEEDS]);
    verdict::verdict(t, &area[SPEEDS..SLOTS], n, e)
}
