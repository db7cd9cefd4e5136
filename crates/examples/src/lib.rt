//! Worked examples: a table of them proved by one proof, and tests that run them.
#![tactic(auto)]

ghost use Rattle.examples.specs.Schedules.{SchedulesHold};
ghost use Rattle.examples.specs.Table.{ExamplesHold};

pub mod kinds;

// Does nothing: its contract is that every row of the table holds.
pub fn examples_hold()
    ensures { ExamplesHold }
{}

// Does nothing: its contract is that every schedule is played as it is written.
pub fn schedules_hold()
    ensures { SchedulesHold }
{}

#[cfg(test)]
mod tests;
