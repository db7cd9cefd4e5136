//! The slices that the caller lends.
ghost use Rattle.std.specs.Prelude.{◌≡◌};

use machine::message::Message;
use machine::station::{RegisterCopy, Station};
use pool::Pool;

// With n stations: the messages that wait; 2n³ votes, first those of ECHO and then those of READY, each by station,
// register and voter; n³ held numbers by station, awaiting station and register; n stations; n² copies and read numbers
// by station and register; n² reports by station and reporting station.
#[derive(Drop)]
pub struct Tables<'a, V> {
    pub pool: Pool<'a, Message<V>>,
    pub votes: &'a mut [Option<V>],
    pub held: &'a mut [u64],
    pub stations: &'a mut [Station<V>],
    pub copies: &'a mut [RegisterCopy<V>],
    pub reads: &'a mut [u64],
    pub reports: &'a mut [u64],
}

// The two kinds of vote on a publication. Those of ECHO stand in the first half of the table.
#[derive(Clone, Copy, PartialEq, Eq, Debug)]
pub enum VoteKind {
    Echo,
    Ready,
}

impl VoteKind {
    ghost use Rattle.tables.specs.View.{half};

    // Which half of the table its votes stand in.
    pub fn half(self) -> usize
        ensures { result ≡ half self }
    {
        self as usize
    }
}
