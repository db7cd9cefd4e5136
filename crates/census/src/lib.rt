//! Surveys of a quorum system: its largest allowed sets, its smallest quorums, and how many of each kind there are.
//! A system and a family go together through this file. In a struct of the two each clause would read
//! `self.now.system.now`, so they stay two parameters.
#![tactic(auto)]

ghost use Rattle.std.specs.Prelude.{◌≡◌, ◌^◌, ◌≤◌, [], IfOk, vec_capacity, Decides};
ghost use Rattle.station_set.specs.Below.{count_below};
ghost use Rattle.census.specs.Outermost.{family_of, steps, Outermost, Exactly};
ghost use Rattle.census.specs.Surveyed.{Surveyed};

use quorum::QuorumSystem;
use station_set::{contains, insert, remove};
use std::alloc::{AllocError, Global};

// The two families of a quorum system. There are these two and no others, so a `match` shows all that can be asked, which
// a closure in its place would not.
#[derive(Clone, Copy, PartialEq, Eq, Debug)]
pub enum Family {
    Allowed,
    Quorums,
}

#[derive(PartialEq, Eq, Debug, Drop)]
pub struct Survey {
    pub largest_allowed: Vec<u16>,
    pub smallest_quorums: Vec<u16>,
    pub allowed_sets: u32,
    pub quorums: u32,
}

fn is_in<S: QuorumSystem>(system: &S, family: Family, set: u16) -> bool
    ensures { result ≡ family_of family (S.families system.now) set }
{
    match family {
        Family::Allowed => system.is_allowed(set),
        Family::Quorums => system.is_quorum(set),
    }
}

// Whether a step of one station stays in the family: an allowed set grows by station s, or a quorum shrinks by it.
fn can_step<S: QuorumSystem>(system: &S, family: Family, set: u16, s: usize) -> bool
    ensures { result ≡ steps family (S.families system.now) set s }
{
    match family {
        Family::Allowed => !contains(set, s) && system.is_allowed(insert(set, s)),
        Family::Quorums => contains(set, s) && system.is_quorum(remove(set, s)),
    }
}

// Whether the set is in the family and no step stays there: then no other set of the family goes beyond it.
fn is_outermost<S: QuorumSystem>(system: &S, family: Family, set: u16) -> bool
    ensures { Decides result (Outermost family (S.families system.now) set) }
{
    is_in(system, family, set) && (0..system.size()).all(|s| !can_step(system, family, set, s))
}

// How many sets of stations there are: their masks are the numbers below this.
fn count_masks<S: QuorumSystem>(system: &S) -> u32
    ensures value { result ≡ 2 ^ (S.families system.now).stations }
    ensures bound { result ≤ 65536 }
{
    1 << system.size()
}

// Lists the largest allowed sets, or the smallest quorums, by rising masks. It cannot fail, since there is room for every set of stations.
fn list_outermost<S: QuorumSystem>(system: &S, family: Family, sets: &mut Vec<u16>)
    requires empty { sets.old.items ≡ [] }
    requires room { 2 ^ (S.families system.now).stations ≤ vec_capacity sets.old }
    ensures { Exactly (Outermost family (S.families system.now)) sets.new.items }
{
    // A `for` over the range filtered by `is_outermost` was tried: this kit makes no proof of one in a generic function.
    for mask in 0..count_masks(system) {
        let set = mask as u16;
        if is_outermost(system, family, set) {
            sets.push_reserved(set);
        }
    }
}

// The largest allowed sets, or the smallest quorums, by rising masks.
pub fn outermost<S: QuorumSystem>(
    heap: Global,
    system: &S,
    family: Family,
) -> Result<Vec<u16>, AllocError>
    ensures { IfOk result (λ sets. Exactly (Outermost family (S.families system.now)) sets.items) }
{
    let mut sets = Vec::with_capacity(heap, count_masks(system) as usize)?;
    list_outermost(system, family, &mut sets);
    Ok(sets)
}

// How many sets the family has.
pub fn count_sets<S: QuorumSystem>(system: &S, family: Family) -> u32
    ensures { result ≡ count_below (2 ^ (S.families system.now).stations) (family_of family (S.families system.now)) }
{
    (0..count_masks(system))
        .filter(|mask| is_in(system, family, *mask as u16))
        .count() as u32
}

impl Survey {
    pub fn of<S: QuorumSystem>(heap: Global, system: &S) -> Result<Survey, AllocError>
        ensures { IfOk result (Surveyed (S.families system.now)) }
    {
        let largest_allowed = outermost(heap, system, Family::Allowed)?;
        let smallest_quorums = outermost(heap, system, Family::Quorums)?;
        Ok(Survey {
            largest_allowed,
            smallest_quorums,
            allowed_sets: count_sets(system, Family::Allowed),
            quorums: count_sets(system, Family::Quorums),
        })
    }
}
