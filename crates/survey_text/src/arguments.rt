//! Reads the program's arguments.
ghost use Rattle.std.specs.Prelude.{◌≡◌, ◌≤◌, length, Err, MatchResult};
ghost use Rattle.survey_text.specs.declared.request.ArgumentError.TheVariants.{NoMemory};
ghost use Rattle.survey_text.specs.Asked.{words_of, SpellAll, Asks, AsksNothing, SpellsNone, counting_request};

use crate::request::{ArgumentError, Request};
use std::alloc::Global;

fn read_numbers(heap: Global, words: &[String]) -> Result<Vec<u64>, ArgumentError>
    ensures spelled { MatchResult result (λ numbers. SpellAll (words_of words.now) numbers.items) (SpellsNone (words_of words.now)) }
    ensures memory { result ≡ Err NoMemory → 1 ≤ length words.now }
{
    let mut numbers = Vec::new(heap);
    for word in words {
        numbers.push(word.as_str().parse::<u64>()?)?;
    }
    Ok(numbers)
}

// `counting` asks for two numbers; with any other number of them it asks for nothing.
fn counting_request(numbers: &[u64]) -> Result<Request, ArgumentError>
    ensures { result ≡ counting_request numbers.now }
{
    match numbers {
        [n, t] => Ok(Request::Counting(*n, *t)),
        _ => Err(ArgumentError::Unreadable),
    }
}

// Memory is wanted only to keep a number, so never where there is none to read.
pub fn read_request(heap: Global, words: &[String]) -> Result<Request, ArgumentError>
    ensures asked { MatchResult result (Asks (words_of words.now)) (AsksNothing (words_of words.now)) }
    ensures memory { result ≡ Err NoMemory → 2 ≤ length words.now }
{
    let [kind, figures @ ..] = words else {
        return Err(ArgumentError::Unreadable);
    };
    let numbers = read_numbers(heap, figures)?;
    match (kind.as_str(), numbers.as_slice()) {
        ("counting", pair) => counting_request(pair),
        ("sites", [_, ..]) => Ok(Request::Sites(numbers)),
        _ => Err(ArgumentError::Unreadable),
    }
}
