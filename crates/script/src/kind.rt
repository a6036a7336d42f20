// The kinds of calls, and the number that a script has for each.
ghost use Rattle.script.specs.Kind.{Decodes};

#[derive(Clone, Copy, Debug, PartialEq, Eq)]
pub enum Kind {
    Clear,
    Declare,
    Sample,
    Close,
    Read,
    Verdict,
}

// A number that no kind has.
#[derive(Clone, Copy, Debug, PartialEq, Eq)]
pub struct UnknownKind(pub u8);

impl TryFrom<u8> for Kind {
    type Error = UnknownKind;

    ghost try_from_gives = { Decodes };

    fn try_from(number: u8) -> Result<Self, UnknownKind> {
        match number {
            0 => Ok(Kind::Clear),
            1 => Ok(Kind::Declare),
            2 => Ok(Kind::Sample),
            3 => Ok(Kind::Close),
            4 => Ok(Kind::Read),
            5 => Ok(Kind::Verdict),
            _ => Err(UnknownKind(number)),
        }
    }
}
