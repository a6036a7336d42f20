// The answers of calls as bytes, written at a place of an output. specs/Answers.antt says what the bytes of an answer are.
#![tactic(auto)]

ghost use Rattle.std.specs.Prelude.{◌≡◌, ◌+◌, ◌≤◌, length};
ghost use Rattle.field.specs.Part.{put};
ghost use Rattle.model.specs.Answers.{answer_by};
ghost use Rattle.model.specs.Trip as trip;
ghost use Rattle.answers.specs.Answers.{answer_length, encode};

use model::{Refusal, Verdict};

// Bytes of an answer.
pub const ANSWER_LEN: usize = 9;

// What an answer is: the first of its bytes.
#[derive(Clone, Copy)]
enum Kind {
    Number,
    Refusal,
    Verdict,
}

// What an accepted call answers: a number, or the verdict.
pub trait Told: Copy {
    // The reference model's answer.
    ghost told: { Self → trip.Answer };

    // Writes it as bytes. Room at a place is asked by each that writes an answer: an output holds many, one behind the other.
    fn put_told(self, out: &mut [u8], at: usize)
        requires { at + answer_length ≤ length out.old }
        ensures { out.new ≡ put out.old at (encode (told self)) };
}

impl Told for i64 {
    ghost told = { trip.number };

    #[tactic(auto, using(crate::proofs::Bytes::byte_field), unfolding(crate::specs::Answers::encode))]
    fn put_told(self, out: &mut [u8], at: usize) {
        field::put(out, at, Kind::Number as u8);
        field::put(out, at + 1, self);
    }
}

impl Told for Verdict {
    ghost told = { trip.judged };

    fn put_told(self, out: &mut [u8], at: usize) {
        field::put(out, at, Kind::Verdict as u8);
        field::put(out, at + 1, self.broken);
        field::put(out, at + 5, u8::from(self.exceeded));
        field::put_le(out, at + 6, 3, u64::from(u32::from(self.finding)));
    }
}

// A refusal by its number, which may be any: a `Refusal` would ask more of callers.
#[tactic(auto, using(crate::proofs::Bytes::byte_field), unfolding(crate::specs::Answers::encode))]
pub fn put_refusal(out: &mut [u8], at: usize, number: u32)
    requires { at + answer_length ≤ length out.old }
    ensures { out.new ≡ put out.old at (encode (trip.refused number)) }
{
    field::put(out, at, Kind::Refusal as u8);
    field::put(out, at + 1, u64::from(number));
}

// The answer of a call.
pub fn put_answer<T: Told>(out: &mut [u8], at: usize, answer: Result<T, Refusal>)
    requires { at + answer_length ≤ length out.old }
    ensures { out.new ≡ put out.old at (encode (answer_by T.told answer)) }
{
    match answer {
        Ok(value) => value.put_told(out, at),
        Err(refusal) => put_refusal(out, at, u32::from(refusal)),
    }
}
