//! How sets of stations are printed.
ghost use Rattle.std.specs.Prelude.{Some};
ghost use Rattle.std.specs.List.{flat_map};
ghost use Rattle.survey_text.specs.Printed.{set_text, set_line};

use station_set::{ROOM, contains};
use std::fmt;

// A set in braces, as { 0 2 3 }.
#[derive(Clone, Copy)]
pub struct Braced(pub u16);

impl fmt::Display for Braced {
    ghost output = { λ set. Some (set_text set.0) };

    #[tactic(auto, using(crate::proofs::Members::members_written))]
    fn fmt<W: fmt::Write>(&self, f: &mut fmt::Formatter<W>) -> fmt::Result {
        write!(f, "{{")?;
        // A `for` over the range filtered by `contains` was tried: this kit makes no proof of one in a generic function.
        for s in 0..ROOM {
            if contains(self.0, s) {
                write!(f, " {s}")?;
            }
        }
        write!(f, " }}")
    }
}

// Each set on a line of its own.
#[derive(Clone, Copy)]
pub struct Lines<'a>(pub &'a [u16]);

impl fmt::Display for Lines<'_> {
    ghost output = { λ sets. Some (flat_map set_line sets.0.now) };

    fn fmt<W: fmt::Write>(&self, f: &mut fmt::Formatter<W>) -> fmt::Result {
        for set in self.0 {
            writeln!(f, "{}", Braced(*set))?;
        }
        Ok(())
    }
}
