// Makes the calls of a script on the state area and writes their answers as bytes (crate answers): the claim about every list of calls holds of this code.
// Crate script says what a script is, specs/Replayed.antt what is promised.
#![tactic(auto)]

ghost use Rattle.std.specs.Prelude.{◌+◌, ◌≤◌, length};
ghost use Rattle.answers.specs.Answers.{answer_length};
ghost use Rattle.script.specs.Next.{made_call};
ghost use Rattle.replay.specs.Replayed.{Called, Replayed};

use answers::ANSWER_LEN;
use script::{Call, Calls, Kind};

// How a replay ended.
#[derive(Clone, Copy, Debug, PartialEq, Eq)]
pub enum Ending {
    // The answer of the next call has no room.
    NoRoom,
    // Every call of the script was made.
    ScriptEnd,
    // Every call before one of an unknown kind was made.
    UnknownKind,
}

// How far a replay came.
#[derive(Clone, Copy)]
pub struct Progress {
    // Calls made.
    pub made: usize,
    // Bytes of answers written.
    pub written: usize,
    pub ending: Ending,
}

// Makes one call and writes its answer. A `match`, since the kinds are closed and each takes other arguments.
#[tactic(auto, using(crate::proofs::Dispatch::called), unfolding(script::specs::Script::call_of))]
fn perform(area: &mut [u8], call: Call, out: &mut [u8], at: usize)
    requires { at + answer_length ≤ length out.old }
    ensures { Called (made_call call.entry) area.old out.old at area.new out.new }
{
    match call.kind {
        Kind::Clear => answers::put_answer(out, at, calls::clear(area)),
        Kind::Declare => answers::put_answer(out, at, record_calls::declare(area, call.bytes)),
        Kind::Sample => answers::put_answer(out, at, record_calls::sample(area, call.bytes)),
        Kind::Close => answers::put_answer(out, at, calls::close(area)),
        Kind::Read => {
            let window = script::window_number(call.bytes);
            answers::put_answer(out, at, calls::read(area, window));
        }
        Kind::Verdict => answers::put_answer(out, at, calls::verdict(area)),
    }
}

// Makes the calls of the script in their order, as long as their answers have room, up to one of an unknown kind.
pub fn replay(area: &mut [u8], script: &[u8], out: &mut [u8]) -> Progress
    ensures { Replayed script.now area.old out.old result area.new out.new }
{
    // What is answered, and no index.
    let mut made = 0;
    // A place, and no chunks of `out`: what is written to a chunk is not known once its loan ends.
    let mut written = 0;
    for call in Calls::new(script) {
        let Ok(call) = call else {
            return Progress {
                made,
                written,
                ending: Ending::UnknownKind,
            };
        };
        if out.len() - written < ANSWER_LEN {
            return Progress {
                made,
                written,
                ending: Ending::NoRoom,
            };
        }
        perform(area, call, out, written);
        made += 1;
        written += ANSWER_LEN;
    }
    Progress {
        made,
        written,
        ending: Ending::ScriptEnd,
    }
}
