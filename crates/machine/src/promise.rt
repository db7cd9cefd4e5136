//! What a bench promises, proved of every run. These functions do nothing at run time: their contracts are the
//! theorems, for every quorum system that shows the laws and every kind of value. The value that they are handed
//! only says which kind is meant.
ghost use Rattle.machine.specs.State.{setting};
ghost use Rattle.machine.specs.Calls.{Forges};
ghost use Rattle.machine.specs.Runs.{RestByCount};
ghost use Rattle.machine.specs.Properties.{BroadcastProperties};
ghost use Rattle.machine.specs.Order.{OrderAndRest};

use quorum::QuorumSystem;
use quorum::consequences::laws_hold;
use value::Value;

// Order: the completed operations of correct stations on a register, and each other write that one of them took,
// fit one order that is legal and keeps precedence. Rest: when no message between correct stations can be taken,
// no correct station has an operation open.
pub fn order_and_rest<V: Value, S: QuorumSystem>(system: &S, opening: &V)
    ensures { OrderAndRest (setting (S.families system.now) V.equal) }
{
    laws_hold(system);
}

// The four properties of the broadcast: agreement, validity, and at rest totality and delivery.
pub fn broadcast_properties<V: Value, S: QuorumSystem>(system: &S, opening: &V)
    ensures { BroadcastProperties (setting (S.families system.now) V.equal) }
{
    laws_hold(system);
}

// A bench is at rest exactly when the second number that count answers is 0.
pub fn rest_by_count<V: Value>(opening: &V)
    ensures { RestByCount V }
{}

// A forged message is the fields that were given, with 0 and the opening value for those that its kind does not use;
// and every message whose numbers are in range can be forged.
pub fn forges_what_is_spelled<V: Value>(highest: u64, opening: &V)
    ensures { Forges highest opening.now }
{}
