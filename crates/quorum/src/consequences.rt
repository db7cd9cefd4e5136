//! What the five laws give, for every system: the order of operations rests on these three facts.
//! These functions do nothing at run time. Their contracts are what a proof calls them for.
ghost use Rattle.quorum.specs.Laws.{Laws};
ghost use Rattle.quorum.specs.Consequences.{QuorumNotAllowed, QuorumsShareOutside, IncludingOutsideQuorum};

use crate::QuorumSystem;

// The laws of the trait, as the record that proofs about every system take.
pub fn laws_hold<S: QuorumSystem>(system: &S)
    ensures { Laws (S.families system.now) }
{}

// A quorum is not allowed.
pub fn quorum_is_not_allowed<S: QuorumSystem>(system: &S)
    ensures { QuorumNotAllowed (S.families system.now) }
{
    laws_hold(system);
}

// Two quorums share a station outside any given allowed set.
pub fn quorums_share_a_station_outside<S: QuorumSystem>(system: &S)
    ensures { QuorumsShareOutside (S.families system.now) }
{
    laws_hold(system);
}

// The stations outside an allowed set, and every set of stations that includes them, are a quorum.
pub fn stations_outside_are_a_quorum<S: QuorumSystem>(system: &S)
    ensures { IncludingOutsideQuorum (S.families system.now) }
{
    laws_hold(system);
}
