//! The tables of a bench, in memory that the caller lends: what they show, and how one part of them changes.
#![tactic(auto)]

pub mod change;
pub mod lent;
pub mod read;
