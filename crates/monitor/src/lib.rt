// The product for C: every exported function. include/rde.h declares them; proofs/Exported.antt has the theorem about every list of the six calls.
#![tactic(auto)]

ghost use Rattle.std.specs.Prelude.{◌≡◌, length};
ghost use Rattle.model.specs.Answers.{checked_of};
ghost use Rattle.model.specs.Blocks.{tallied, joined, co2_checked};
ghost use Rattle.model.specs.Trip as model;
ghost use Rattle.area.specs.Layout.{area_len};
ghost use Rattle.monitor.specs.Reply.{reply_of, verdict_reply_of, co2_reply_of, Told, Writes};
ghost use Rattle.monitor.specs.Exported.{plain, judgement, Exported};

use model::{Co2Check, Refusal, Verdict};

// An answer: refusal 0 is accepted, with the value; any other refusal has value 0. C has no `Result`, so this and the next two are structs of numbers.
#[repr(C)]
#[derive(Clone, Copy)]
pub struct RdeAnswer {
    pub refusal: u32,
    pub value: i64,
}

// The answer of the verdict call: word 0 to 31 is a rule, 32 exceeded, 33 clean.
#[repr(C)]
#[derive(Clone, Copy)]
pub struct RdeVerdictAnswer {
    pub refusal: u32,
    pub broken: u32,
    pub exceeded: u32,
    pub word: u32,
}

// The answer of the check of CO2 windows.
#[repr(C)]
#[derive(Clone, Copy)]
pub struct RdeCo2Answer {
    pub refusal: u32,
    pub complete: u32,
    pub normal: u32,
    pub pass: u32,
}

impl From<Result<i64, Refusal>> for RdeAnswer {
    ghost from_gives = { λ answer reply. reply ≡ reply_of answer };

    fn from(answer: Result<i64, Refusal>) -> RdeAnswer {
        match answer {
            Ok(value) => RdeAnswer { refusal: 0, value },
            Err(refusal) => RdeAnswer {
                refusal: u32::from(refusal),
                value: 0,
            },
        }
    }
}

impl From<Result<Verdict, Refusal>> for RdeVerdictAnswer {
    ghost from_gives = { λ answer reply. reply ≡ verdict_reply_of answer };

    fn from(answer: Result<Verdict, Refusal>) -> RdeVerdictAnswer {
        match answer {
            Ok(verdict) => RdeVerdictAnswer {
                refusal: 0,
                broken: verdict.broken,
                exceeded: model::bit(verdict.exceeded),
                word: u32::from(verdict.finding),
            },
            Err(refusal) => RdeVerdictAnswer {
                refusal: u32::from(refusal),
                broken: 0,
                exceeded: 0,
                word: 0,
            },
        }
    }
}

impl From<Result<Co2Check, Refusal>> for RdeCo2Answer {
    ghost from_gives = { λ answer reply. reply ≡ co2_reply_of (checked_of answer) };

    fn from(answer: Result<Co2Check, Refusal>) -> RdeCo2Answer {
        match answer {
            Ok(check) => RdeCo2Answer {
                refusal: 0,
                complete: check.complete,
                normal: check.normal,
                pass: model::bit(check.pass),
            },
            Err(refusal) => RdeCo2Answer {
                refusal: u32::from(refusal),
                complete: 0,
                normal: 0,
                pass: 0,
            },
        }
    }
}

// The length of the state area.
pub fn rde_area_len() -> usize
    ensures { result ≡ area_len }
{
    area::AREA_LEN
}

// Makes the area fresh.
pub fn rde_clear(area: &mut [u8]) -> RdeAnswer
    ensures { Exported model.clear area.old (plain result) area.new }
{
    RdeAnswer::from(calls::clear(area))
}

// Declares a window.
pub fn rde_declare(area: &mut [u8], record: &[u8]) -> RdeAnswer
    ensures { Exported (model.declare «record».now) area.old (plain result) area.new }
{
    RdeAnswer::from(record_calls::declare(area, record))
}

// Takes a sample.
pub fn rde_sample(area: &mut [u8], record: &[u8]) -> RdeAnswer
    ensures { Exported (model.sample «record».now) area.old (plain result) area.new }
{
    RdeAnswer::from(record_calls::sample(area, record))
}

// Closes the trip.
pub fn rde_close(area: &mut [u8]) -> RdeAnswer
    ensures { Exported model.close area.old (plain result) area.new }
{
    RdeAnswer::from(calls::close(area))
}

// Reads a window.
pub fn rde_read(area: &[u8], window: u32) -> RdeAnswer
    ensures { Exported (model.read window) area.now (plain result) area.now }
{
    RdeAnswer::from(calls::read(area, window))
}

// The verdict on the samples so far.
pub fn rde_verdict(area: &[u8]) -> RdeVerdictAnswer
    ensures { Exported model.verdict area.now (judgement result) area.now }
{
    RdeVerdictAnswer::from(calls::verdict(area))
}

// The tally of a block of sample records.
pub fn rde_tally(block: &[u8], out: &mut [u8]) -> RdeAnswer
    ensures { Told (Writes (tallied block.now (length out.old)) out.old out.new) result }
{
    RdeAnswer::from(tally_calls::tally_block(block, out))
}

// The tally of two tallies' samples together.
pub fn rde_join(a: &[u8], b: &[u8], out: &mut [u8]) -> RdeAnswer
    ensures { Told (Writes (joined a.now b.now (length out.old)) out.old out.new) result }
{
    RdeAnswer::from(tally_calls::join_tallies(a, b, out))
}

// The CO2 windows of a block of sample records by a reference record.
pub fn rde_co2(block: &[u8], reference: &[u8]) -> RdeCo2Answer
    ensures { result ≡ co2_reply_of (co2_checked block.now reference.now) }
{
    RdeCo2Answer::from(co2_windows::check(block, reference))
}
