//! What a bench is: its messages, its stations' tables, and the machine that a call moves by one step.
#![tactic(auto)]

pub mod call;
pub mod figures;
pub mod message;
pub mod promise;
pub mod station;
