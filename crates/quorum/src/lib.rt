//! Quorum systems: which sets of stations may be faulty, and which are enough to go on.
#![tactic(auto)]

ghost use Rattle.std.specs.Prelude.{◌≡◌, ◌≤◌};
ghost use Rattle.quorum.specs.Laws.{Families, OfStations, EmptyAllowed, SubsetAllowed, SupersetQuorum, OverlapNotAllowed, OutsideQuorum};

pub mod by_site;
pub mod consequences;
pub mod counting;
pub mod unfit;

// A system that is made here has at most ten stations.
pub const MOST_STATIONS: usize = 10;

// A system means its two families of sets: those that may be the faulty set, and those that are enough to go on.
// A set is a 16-bit mask in which bit s stands for station s.
pub trait QuorumSystem {
    ghost families: { Self → Families };

    // How many stations there are.
    fn size(&self) -> usize
        ensures { result ≡ (families self.now).stations };

    // Whether the set may be the faulty set.
    fn is_allowed(&self, set: u16) -> bool
        ensures { result ≡ (families self.now).allowed set };

    // Whether the set is enough to go on.
    fn is_quorum(&self, set: u16) -> bool
        ensures { result ≡ (families self.now).quorum set };

    // A mask has sixteen bits, and one with a bit for no station is in neither family.
    ghost sized: { (q : Self) → (families q).stations ≤ 16 };

    ghost bounded: { (q : Self) → OfStations (families q).stations (families q).allowed };

    ghost seated: { (q : Self) → OfStations (families q).stations (families q).quorum };

    // 1. The empty set is allowed.
    ghost empty: { (q : Self) → EmptyAllowed (families q) };

    // 2. A subset of an allowed set is allowed.
    ghost subset: { (q : Self) → SubsetAllowed (families q) };

    // 3. A set of stations that includes a quorum is a quorum.
    ghost superset: { (q : Self) → SupersetQuorum (families q) };

    // 4. What two quorums have in common is never an allowed set.
    ghost overlap: { (q : Self) → OverlapNotAllowed (families q) };

    // 5. All stations outside an allowed set together are a quorum.
    ghost outside: { (q : Self) → OutsideQuorum (families q) };
}
