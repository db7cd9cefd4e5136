//! Tallies of a test run as values.
ghost use Rattle.value.specs.Kinds.{same_tally};
ghost use Rattle.std.proofs.Common.{rules};

use crate::{Printable, Value};

// How many selectors passed, failed and were skipped.
#[derive(Clone, Copy, PartialEq, Eq, Debug)]
pub struct Tally {
    pub passed: u16,
    pub failed: u16,
    pub skipped: u16,
}

impl Value for Tally {
    ghost equal = { same_tally };

    ghost exact = { Prim.search rules };

    fn same(&self, other: &Tally) -> bool {
        self == other
    }
}

impl Printable for Tally {
    ghost columns = { 3 };

    ghost some = { Prim.search rules };

    fn columns() -> usize {
        3
    }
}
