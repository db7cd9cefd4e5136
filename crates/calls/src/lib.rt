//! The calls on the tables of an open bench, and its opening. Each answers exactly what the machine answers and leaves
//! exactly the machine's state; one that is declined leaves every table as it was.
#![tactic(auto)]

mod act;
pub mod begin;
pub mod count;
pub mod forge;
mod message;
pub mod open;
mod permit;
pub mod take;
