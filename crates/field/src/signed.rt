// Signed fields, in two's complement: the bits of an unsigned number.
ghost use Rattle.model.specs.Numbers.{signed, unsigned};
ghost use Rattle.std.proofs.Common.{rules};

use crate::Field;

impl Field for i16 {
    const LEN: usize = 2;

    ghost LEN = { 2 };

    ghost value = { signed 2 };

    ghost number = { unsigned 2 };

    ghost within_u64 = { Prim.search rules };

    #[tactic(auto, using(crate::proofs::Casts::casts))]
    fn from_number(n: u64) -> i16 {
        u16::from_number(n).cast_signed()
    }

    fn to_number(self) -> u64 {
        u16::to_number(self.cast_unsigned())
    }
}

impl Field for i32 {
    const LEN: usize = 4;

    ghost LEN = { 4 };

    ghost value = { signed 4 };

    ghost number = { unsigned 4 };

    ghost within_u64 = { Prim.search rules };

    #[tactic(auto, using(crate::proofs::Casts::casts))]
    fn from_number(n: u64) -> i32 {
        u32::from_number(n).cast_signed()
    }

    fn to_number(self) -> u64 {
        u32::to_number(self.cast_unsigned())
    }
}

impl Field for i64 {
    const LEN: usize = 8;

    ghost LEN = { 8 };

    ghost value = { signed 8 };

    ghost number = { unsigned 8 };

    ghost within_u64 = { Prim.search rules };

    #[tactic(auto, using(crate::proofs::Casts::casts))]
    fn from_number(n: u64) -> i64 {
        u64::from_number(n).cast_signed()
    }

    fn to_number(self) -> u64 {
        u64::to_number(self.cast_unsigned())
    }
}
