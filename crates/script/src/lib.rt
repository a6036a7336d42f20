// A script, a list of calls as bytes: its calls, one after the other, and the number of the window that a call reads.
// specs/Script.antt says what a script is, specs/Encoded.antt that every list of calls has one.
#![tactic(auto)]

ghost use Rattle.std.specs.Prelude.{◌≡◌, length};
ghost use Rattle.std.specs.Iterator.{at_most};
ghost use Rattle.script.specs.Script.{window_number};
ghost use Rattle.script.specs.Next.{rest_of, Reads, Next};

mod kind;

pub use kind::{Kind, UnknownKind};

// Bytes of a call's kind and of the length of what follows, eight bytes.
pub const HEAD_LEN: usize = 9;

// A call: its kind, and its bytes, which are its record or the number of the window that it reads.
#[derive(Clone, Copy)]
pub struct Call<'a> {
    pub kind: Kind,
    pub bytes: &'a [u8],
}

impl<'a> Call<'a> {
    fn decode(number: u8, bytes: &'a [u8]) -> Result<Self, UnknownKind>
        ensures { Reads number bytes.now result }
    {
        let kind = Kind::try_from(number)?;
        Ok(Call { kind, bytes })
    }
}

// The calls of a script in their order, up to the last whole one; one of an unknown kind is an error.
#[derive(Drop)]
pub struct Calls<'a> {
    // What is left of the script.
    rest: &'a [u8],
}

impl<'a> Iterator for Calls<'a> {
    type Item = Result<Call<'a>, UnknownKind>;

    ghost next_gives = { Next };

    ghost remaining = { λ s. at_most (length (rest_of s)) };

    #[tactic(auto, using(crate::proofs::Next::cut_off))]
    fn next(&mut self) -> Option<Result<Call<'a>, UnknownKind>> {
        let (head, behind) = self.rest.split_at_checked(HEAD_LEN)?;
        let length = field::get::<u64>(head, 1) as usize;
        let (bytes, rest) = behind.split_at_checked(length)?;
        self.rest = rest;
        Some(Call::decode(head[0], bytes))
    }
}

impl<'a> Calls<'a> {
    pub fn new(script: &'a [u8]) -> Self
        ensures { rest_of result ≡ script.now }
    {
        Calls { rest: script }
    }
}

// The window that a call reads. Bytes past the fourth do not count.
#[tactic(auto, using(crate::proofs::Next::number_of_first, crate::proofs::Next::fits_four))]
pub fn window_number(bytes: &[u8]) -> u32
    ensures { result ≡ window_number bytes.now }
{
    // No field of one type: the width is that of the bytes.
    field::get_le(bytes, 0, bytes.len().min(4)) as u32
}
