//! Numbers as values.
ghost use Rattle.value.specs.Kinds.{same_number};
ghost use Rattle.std.proofs.Common.{rules};

use crate::{Printable, Value};

// A 32-bit whole number.
#[derive(Clone, Copy, PartialEq, Eq, Debug)]
pub struct Number(pub u32);

impl Value for Number {
    ghost equal = { same_number };

    ghost exact = { Prim.search rules };

    fn same(&self, other: &Number) -> bool {
        self == other
    }
}

impl Printable for Number {
    ghost columns = { 1 };

    ghost some = { Prim.search rules };

    fn columns() -> usize {
        1
    }
}
