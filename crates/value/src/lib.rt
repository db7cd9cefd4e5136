//! Kinds of value that a register can hold.
#![tactic(auto)]

ghost use Rattle.std.specs.Prelude.{◌≡◌, ℕ, ◌<◌, ◌≤◌, Bool, Decides, length, slice_index_or};
ghost use Rattle.station_set.specs.Sets.{has};
ghost use Rattle.value.specs.Holders.{keeps, holders_of};

use station_set::{ROOM, set_of};

pub mod number;
pub mod tally;

pub use number::Number;
pub use tally::Tally;

// A kind of value: it can be copied, and `same` says yes exactly for the same value. Its `==`, if it has one, need not:
// it may leave a field out.
pub trait Value: Copy {
    ghost equal: { Self → Self → Bool };

    fn same(&self, other: &Self) -> bool
        ensures { result ≡ equal self.now other.now };

    ghost exact: { (a b : Self) → Decides (equal a b) (a ≡ b) };
}

// A kind of value that is printed: it fills some columns of a line.
pub trait Printable: Value {
    ghost columns: { ℕ };

    fn columns() -> usize
        ensures { result ≡ columns };

    ghost some: { 1 ≤ columns };
}

// Whether what is kept is v.
fn keeps<V: Value>(kept: Option<V>, v: V) -> bool
    ensures { result ≡ keeps V.equal v kept }
{
    kept.is_some_and(|w| w.same(&v))
}

// The set of the stations whose kept value is v, where `row[s]` is what station s keeps.
pub fn holders<V: Value>(row: &[Option<V>], v: V) -> u16
    ensures value { result ≡ holders_of V.equal v row.now }
    ensures members { (s : ℕ) → s < 16 → Decides (has result s) (slice_index_or row.now s None ≡ Some v) }
{
    set_of(
        row.len().min(ROOM),
        |s|
            requires { s < length row.now }
            ensures { result ≡ keeps V.equal v (slice_index_or row.entry.now s None) }
        { keeps(row[s], v) },
    )
}
