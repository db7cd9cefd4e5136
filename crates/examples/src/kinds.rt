//! A kind of value whose `==` leaves a field out.
ghost use Rattle.machine.specs.State.{setting};
ghost use Rattle.machine.specs.Order.{OrderAndRest};
ghost use Rattle.examples.specs.Kinds.{same_timed};
ghost use Rattle.std.proofs.Common.{rules};

use machine::promise::order_and_rest;
use quorum::QuorumSystem;
use value::Value;

// A count, and the second in which it was taken. `==` compares the counts alone; a register keeps both.
#[derive(Clone, Copy)]
#[derive_where(PartialEq, Eq, Debug)]
pub struct Timed {
    pub count: u32,
    #[derive_where(skip(EqHashOrd))]
    pub second: u32,
}

impl Value for Timed {
    ghost equal = { same_timed };

    ghost exact = { Prim.search rules };

    fn same(&self, other: &Timed) -> bool {
        self == other && self.second == other.second
    }
}

// Order and rest hold of such a kind as of any other.
pub fn timed_order_and_rest<S: QuorumSystem>(system: &S, opening: &Timed)
    ensures { OrderAndRest (setting (S.families system.now) same_timed) }
{
    order_and_rest(system, opening);
}
