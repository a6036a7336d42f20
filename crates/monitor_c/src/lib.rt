// What C links: every exported function, as crate monitor has it, with the same contract. include/rde.h declares them.
// The functions stand twice since a static library is no library, and the theorem about the exported calls stands over one.
#![tactic(auto)]

ghost use Rattle.std.specs.Prelude.{◌≡◌, length};
ghost use Rattle.model.specs.Blocks.{tallied, joined, co2_checked};
ghost use Rattle.model.specs.Trip as model;
ghost use Rattle.area.specs.Layout.{area_len};
ghost use Rattle.monitor.specs.Reply.{co2_reply_of, Told, Writes};
ghost use Rattle.monitor.specs.Exported.{plain, judgement, Exported};

use monitor::{RdeAnswer, RdeCo2Answer, RdeVerdictAnswer};

// The length of the state area.
#[unsafe(no_mangle)]
pub extern "C" fn rde_area_len() -> usize
    ensures { result ≡ area_len }
{
    monitor::rde_area_len()
}

// Makes the area fresh.
#[unsafe(no_mangle)]
pub extern "C" fn rde_clear(area: &mut [u8]) -> RdeAnswer
    ensures { Exported model.clear area.old (plain result) area.new }
{
    monitor::rde_clear(area)
}

// Declares a window.
#[unsafe(no_mangle)]
pub extern "C" fn rde_declare(area: &mut [u8], record: &[u8]) -> RdeAnswer
    ensures { Exported (model.declare «record».now) area.old (plain result) area.new }
{
    monitor::rde_declare(area, record)
}

// Takes a sample.
#[unsafe(no_mangle)]
pub extern "C" fn rde_sample(area: &mut [u8], record: &[u8]) -> RdeAnswer
    ensures { Exported (model.sample «record».now) area.old (plain result) area.new }
{
    monitor::rde_sample(area, record)
}

// Closes the trip.
#[unsafe(no_mangle)]
pub extern "C" fn rde_close(area: &mut [u8]) -> RdeAnswer
    ensures { Exported model.close area.old (plain result) area.new }
{
    monitor::rde_close(area)
}

// Reads a window.
#[unsafe(no_mangle)]
pub extern "C" fn rde_read(area: &[u8], window: u32) -> RdeAnswer
    ensures { Exported (model.read window) area.now (plain result) area.now }
{
    monitor::rde_read(area, window)
}

// The verdict on the samples so far.
#[unsafe(no_mangle)]
pub extern "C" fn rde_verdict(area: &[u8]) -> RdeVerdictAnswer
    ensures { Exported model.verdict area.now (judgement result) area.now }
{
    monitor::rde_verdict(area)
}

// The tally of a block of sample records.
#[unsafe(no_mangle)]
pub extern "C" fn rde_tally(block: &[u8], out: &mut [u8]) -> RdeAnswer
    ensures { Told (Writes (tallied block.now (length out.old)) out.old out.new) result }
{
    monitor::rde_tally(block, out)
}

// The tally of two tallies' samples together.
#[unsafe(no_mangle)]
pub extern "C" fn rde_join(a: &[u8], b: &[u8], out: &mut [u8]) -> RdeAnswer
    ensures { Told (Writes (joined a.now b.now (length out.old)) out.old out.new) result }
{
    monitor::rde_join(a, b, out)
}

// The CO2 windows of a block of sample records by a reference record.
#[unsafe(no_mangle)]
pub extern "C" fn rde_co2(block: &[u8], reference: &[u8]) -> RdeCo2Answer
    ensures { result ≡ co2_reply_of (co2_checked block.now reference.now) }
{
    monitor::rde_co2(block, reference)
}
