// Unsigned fields: the number itself.
ghost use Rattle.std.proofs.Common.{rules};

use crate::Field;

impl Field for u8 {
    const LEN: usize = 1;

    ghost LEN = { 1 };

    ghost value = { λ n. n };

    ghost number = { λ v. v };

    ghost within_u64 = { Prim.search rules };

    fn from_number(n: u64) -> u8 {
        n as u8
    }

    fn to_number(self) -> u64 {
        u64::from(self)
    }
}

impl Field for u16 {
    const LEN: usize = 2;

    ghost LEN = { 2 };

    ghost value = { λ n. n };

    ghost number = { λ v. v };

    ghost within_u64 = { Prim.search rules };

    fn from_number(n: u64) -> u16 {
        n as u16
    }

    fn to_number(self) -> u64 {
        u64::from(self)
    }
}

impl Field for u32 {
    const LEN: usize = 4;

    ghost LEN = { 4 };

    ghost value = { λ n. n };

    ghost number = { λ v. v };

    ghost within_u64 = { Prim.search rules };

    fn from_number(n: u64) -> u32 {
        n as u32
    }

    fn to_number(self) -> u64 {
        u64::from(self)
    }
}

impl Field for u64 {
    const LEN: usize = 8;

    ghost LEN = { 8 };

    ghost value = { λ n. n };

    ghost number = { λ v. v };

    ghost within_u64 = { Prim.search rules };

    fn from_number(n: u64) -> u64 {
        n
    }

    fn to_number(self) -> u64 {
        self
    }
}
