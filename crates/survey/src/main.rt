//! Prints which sets of stations a quorum system allows to be faulty, and which are quorums.
#![tactic(auto)]

use std::{env, io};
use survey_text::answer;

fn main(rt: HostRuntime) -> io::Result<()> {
    let words: Vec<String> = env::args(&rt)?.skip(1).collect(rt.alloc())?;
    let text = answer(rt.alloc(), words.as_slice())?;
    rt.print(text)
}
