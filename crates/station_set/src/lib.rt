//! Sets of stations as 16-bit masks: bit s stands for station s, so a set has stations 0 to 15. A set is a bare `u16`
//! everywhere, by a rule of the project (docs/DECISIONS.md).
#![tactic(auto)]

ghost use Rattle.std.specs.Prelude.{◌≡◌, ℕ, ◌^◌, ◌<◌, ◌≤◌, Bool};
ghost use Rattle.station_set.specs.Sets.{has, among, members, union, common, single, first, missing, with_station, without_station, set_of};
ghost use Rattle.station_set.specs.ByMember.{ByMember};

// How many stations a mask has room for.
pub const ROOM: usize = 16;

fn power(s: usize) -> u16
    requires { s < 16 }
    ensures { result ≡ 2 ^ s }
{
    1 << s
}

fn bit(set: u16, s: usize) -> bool
    requires { s < 16 }
    ensures { result ≡ has set s }
{
    (set >> s) & 1 == 1
}

// Whether station s is in the set.
pub fn contains(set: u16, s: usize) -> bool
    ensures { result ≡ has set s }
{
    s < ROOM && bit(set, s)
}

// The set of one station; of none where a mask has no bit for it.
pub fn single(s: usize) -> u16
    ensures { result ≡ single s }
{
    if s < ROOM { power(s) } else { 0 }
}

// The stations of either set.
pub fn union(a: u16, b: u16) -> u16
    ensures { result ≡ union a b }
{
    a | b
}

// The stations of both sets. As `union`, it is one operator: a function that is handed the operator would be longer.
pub fn common(a: u16, b: u16) -> u16
    ensures { result ≡ common a b }
{
    a & b
}

// The set with one station more.
pub fn insert(set: u16, s: usize) -> u16
    ensures { result ≡ with_station set s }
{
    union(set, single(s))
}

// The set without one station.
pub fn remove(set: u16, s: usize) -> u16
    ensures { result ≡ without_station set s }
{
    common(set, missing(ROOM, single(s)))
}

// The stations 0 to n - 1, as far as a mask has room.
pub fn first(n: usize) -> u16
    ensures { result ≡ first n }
{
    if n < ROOM { power(n) - 1 } else { u16::MAX }
}

// Those of the stations 0 to n - 1 that the set lacks.
pub fn missing(n: usize, set: u16) -> u16
    ensures { result ≡ missing n set }
{
    first(n) ^ common(first(n), set)
}

// Whether each member is one of the stations 0 to n - 1.
pub fn is_among(n: usize, set: u16) -> bool
    ensures { result ≡ among n set }
{
    n >= ROOM || set < power(n)
}

// How many stations the set has.
pub fn size(set: u16) -> u32
    ensures { result ≡ members set }
{
    set.count_ones()
}

// The stations below n that pass a test.
pub fn set_of<F: Fn(usize) -> bool>(n: usize, passes: F) -> u16
    requires room { n ≤ 16 }
    requires callable { (s : ℕ) → s < n → F.pre passes s }
    ensures { (test : ℕ → Bool) → ((s : ℕ) (b : Bool) → s < n → F.post passes s b → b ≡ test s) → result ≡ set_of n test }
{
    let mut set = 0;
    for s in 0..n {
        if passes(s) {
            set = insert(set, s);
        }
    }
    set
}

// Does nothing: its contract says what each operation means, member by member.
pub fn sets_by_member()
    ensures { ByMember }
{}
