//! Quorums by count: of n stations at most t may be faulty.
ghost use Rattle.std.specs.Prelude.{◌≡◌, ◌*◌, ◌<◌, ◌≤◌, is_ok, Decides};
ghost use Rattle.quorum.specs.CountingSets.{by_count, CountingInWords, CountingLimits, counting_bar};
ghost use Rattle.quorum.specs.Reasons.{MadeUnless, DeclinedWith};
ghost use Rattle.quorum.specs.CountingLaws.{counting_bounded, counting_seated, counting_empty, counting_subset, counting_superset, counting_overlap, counting_outside};
ghost use Rattle.std.proofs.Common.{arith};

use crate::unfit::Unfit;
use crate::{MOST_STATIONS, QuorumSystem};
use station_set::{is_among, size};

#[derive(Clone, Copy, PartialEq, Eq, Debug)]
pub struct Counting {
    n: usize,
    t: u32,
    ghost some: { 1 ≤ n },
    ghost most: { n ≤ 10 },
    ghost faults: { 3 * t < n },
}

impl Counting {
    // The system of n stations of which t may be faulty, where 3t < n.
    pub fn new(n: u64, t: u64) -> Result<Counting, Unfit>
        ensures answer { MadeUnless (counting_bar n t) (λ q. (q.n ≡ n) × (q.t ≡ t)) result }
        ensures declined { DeclinedWith 14 result }
        ensures limits { Decides (is_ok result) (CountingLimits n t) }
    {
        if n == 0 {
            return Err(Unfit::NoStations);
        }
        if n > MOST_STATIONS as u64 {
            return Err(Unfit::TooManyStations);
        }
        // The first test keeps the product from wrapping.
        if t >= n || 3 * t >= n {
            return Err(Unfit::TooManyFaults);
        }
        Ok(Counting {
            n: n as usize,
            t: t as u32,
        })
    }
}

impl QuorumSystem for Counting {
    ghost families = { λ q. by_count q.n q.t };

    ghost sized = { λ q. omega arith };

    ghost bounded = { λ q. counting_bounded q.n q.t };

    ghost seated = { λ q. counting_seated q.n q.t };

    ghost empty = { λ q. counting_empty q.n q.t };

    ghost subset = { λ q. counting_subset q.n q.t };

    ghost superset = { λ q. counting_superset q.n q.t };

    ghost overlap = { λ q. counting_overlap q.n q.t q.faults };

    ghost outside = { λ q. counting_outside q.n q.t (omega arith) };

    fn size(&self) -> usize {
        self.n
    }

    fn is_allowed(&self, set: u16) -> bool {
        is_among(self.n, set) && size(set) <= self.t
    }

    fn is_quorum(&self, set: u16) -> bool {
        is_among(self.n, set) && size(set) as usize >= self.n - self.t as usize
    }
}

// Does nothing: its contract says in words which sets are allowed, and which are quorums.
pub fn counting_in_words()
    ensures { CountingInWords }
{}
