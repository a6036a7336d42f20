// The types and figures that code and definitions share. The definitions are in specs/.
#![tactic(auto)]

ghost use Rattle.std.specs.Prelude.{◌≡◌, ◌≤◌};
ghost use Rattle.model.specs.Numbers.{bit};
ghost use Rattle.model.specs.Answers.{refusal_number, finding_code};
ghost use Rattle.model.specs.Records.{function_read};

mod per_class;

pub use per_class::PerClass;

// Bytes of a sample record, of a window record and of a reference record.
pub const RECORD_LEN: usize = 16;

// Bytes of a tally.
pub const TALLY_LEN: usize = 112;

// The most samples of a trip, of a block and of a tally.
pub const MAX_SAMPLES: u32 = 7201;

pub const MAX_WINDOWS: u32 = 16;

// The widest window's samples.
pub const MAX_WIDTH: u16 = 600;

// No channel of a sample in range is above this, nor below minus the next.
pub const MAX_CHANNEL: u64 = 100_000_000;

pub const MAX_BELOW: u64 = 1_000_000;

// The bounds of extended conditions: temperatures in tenths of kelvin, and the altitude in metres. Beyond them a rule is broken.
pub const LOWEST_TEMPERATURE: u16 = 2660;

pub const HIGHEST_TEMPERATURE: u16 = 3080;

pub const HIGHEST_ALTITUDE: i16 = 1300;

// 1 for a test that holds: what masks and counts are made of.
pub fn bit(b: bool) -> u32
    ensures { (result ≡ bit b) × (result ≤ 1) }
{
    u32::from(b)
}

// A speed in tenths of km/h.
#[derive(Clone, Copy)]
pub struct Speed(pub u16);

// A distance in units of 1/36,000 km: what one second at one tenth of a km/h covers.
#[derive(Clone, Copy)]
pub struct Distance(pub u64);

// One sample, taken once a second.
#[derive(Clone, Copy)]
pub struct Sample {
    // Seconds since the first sample.
    pub second: u16,
    pub speed: Speed,
    // Metres.
    pub altitude: i16,
    // Tenths of kelvin.
    pub temperature: u16,
    // Exhaust mass flow in tenths of kg/h.
    pub flow: u16,
    // NOx concentration in ppm, below zero where the analyser drifts.
    pub nox: i16,
    // CO2 mass flow in mg/s.
    pub co2: u32,
}

// What a window reads off the values of its qualifying samples.
#[derive(Clone, Copy, Debug, PartialEq, Eq)]
pub enum Function {
    Count,
    Sum,
    Smallest,
    Largest,
    Average,
    Percentile,
}

// The classes of Annex IIIA by the sample's own speed.
#[derive(Clone, Copy, Debug, PartialEq, Eq)]
pub enum SpeedClass {
    Urban,
    Rural,
    Motorway,
}

// The tally of one speed class.
#[derive(Clone, Copy)]
pub struct ClassTally {
    pub samples: u64,
    pub distance: Distance,
}

// What the rules need of a list of samples, but for the accelerations and the first and last altitude.
#[derive(Clone, Copy)]
pub struct Tally {
    pub classes: PerClass<ClassTally>,
    // Samples below 1 km/h.
    pub stops: u64,
    // Samples above 100 km/h.
    pub over100: u64,
    // Samples above 145 km/h and up to 160 km/h.
    pub over145: u64,
    // Samples above 160 km/h.
    pub over160: u64,
    // Samples outside the extended temperature range.
    pub temperature: u64,
    // Samples above the extended altitude limit.
    pub altitude: u64,
    // The sum of flow times NOx.
    pub nox: i64,
    // The same over the samples in extended conditions alone.
    pub extended: i64,
}

// What the CO2 windows of a drive are judged by.
#[derive(Clone, Copy)]
pub struct Reference {
    // The CO2 that completes a window, in mg.
    pub mass: u32,
    // The CO2 characteristic curve at mean speeds of 19.0, 56.6 and 92.3 km/h, in g/km.
    pub c1: u16,
    pub c2: u16,
    pub c3: u16,
}

// What the check of CO2 windows answers: how many are complete, how many of these are normal, and whether the drive is plausible.
#[derive(Clone, Copy)]
pub struct Co2Check {
    pub complete: u32,
    pub normal: u32,
    pub pass: bool,
}

// What a verdict says first. Document 01 calls it the word.
#[derive(Clone, Copy, Debug, PartialEq, Eq)]
pub enum Finding {
    Rule(u32),
    Exceeded,
    Clean,
}

#[derive(Clone, Copy, Debug, PartialEq, Eq)]
pub struct Verdict {
    // Bit k is set where rule k is broken.
    pub broken: u32,
    pub exceeded: bool,
    pub finding: Finding,
}

// Why a call is refused. A call answers a `Result<_, Refusal>`; specs/Answers.antt has the number of each.
#[derive(Clone, Copy, Debug, PartialEq, Eq)]
pub enum Refusal {
    // A record that is not 16 bytes long, or a block that is no multiple of that.
    RecordLength,
    // A sample, a window or another close after the trip was closed.
    TripClosed,
    SecondOutOfTurn,
    ValueOutOfRange,
    // All samples of a trip are held already, or a block has more.
    TooManySamples,
    WindowLayout,
    WindowAfterSample,
    // All windows are declared already.
    TooManyWindows,
    NoSuchWindow,
    NoneQualifies,
    // The area or the output is not as long as it must be.
    WrongLength,
    TallyIllFormed,
    TooManyJoined,
    // The reference record of CO2 windows is ill-formed, or not 16 bytes long.
    ReferenceIllFormed,
    // The area is found to stand for no trip; document 01 leaves the number free.
    AreaDamaged,
}

// The number of a refusal, of document 01's table and of R-5.
impl From<Refusal> for u32 {
    ghost from_gives = { λ refusal n. n ≡ refusal_number refusal };

    fn from(refusal: Refusal) -> u32 {
        match refusal {
            Refusal::RecordLength => 1,
            Refusal::TripClosed => 2,
            Refusal::SecondOutOfTurn => 3,
            Refusal::ValueOutOfRange => 4,
            Refusal::TooManySamples => 5,
            Refusal::WindowLayout => 6,
            Refusal::WindowAfterSample => 7,
            Refusal::TooManyWindows => 8,
            Refusal::NoSuchWindow => 9,
            Refusal::NoneQualifies => 10,
            Refusal::WrongLength => 11,
            Refusal::TallyIllFormed => 12,
            Refusal::TooManyJoined => 13,
            Refusal::ReferenceIllFormed => 14,
            Refusal::AreaDamaged => 255,
        }
    }
}

// A finding as a number: 0 to 31 a rule, 32 exceeded, 33 clean.
impl From<Finding> for u32 {
    ghost from_gives = { λ finding n. n ≡ finding_code finding };

    fn from(finding: Finding) -> u32 {
        match finding {
            Finding::Rule(k) => k,
            Finding::Exceeded => 32,
            Finding::Clean => 33,
        }
    }
}

// The function of a code.
impl TryFrom<u8> for Function {
    type Error = Refusal;

    ghost try_from_gives = { λ code r. r ≡ function_read code };

    fn try_from(code: u8) -> Result<Function, Refusal> {
        match code {
            0 => Ok(Function::Count),
            1 => Ok(Function::Sum),
            2 => Ok(Function::Smallest),
            3 => Ok(Function::Largest),
            4 => Ok(Function::Average),
            5 => Ok(Function::Percentile),
            6..=255 => Err(Refusal::WindowLayout),
        }
    }
}
