//! The survey program's words: what its arguments ask for, and what it prints.
#![tactic(auto)]

ghost use Rattle.std.specs.Prelude.{◌≡◌, IfOk, MatchResult, string_bytes};
ghost use Rattle.survey_text.specs.Printed.{request_name, declined_text};
ghost use Rattle.survey_text.specs.Asked.{words_of};
ghost use Rattle.survey_text.specs.Answered.{Reports, Answers, Answered};

use arguments::read_request;
use census::Survey;
use decline::Decline;
use quorum::QuorumSystem;
use quorum::by_site::BySite;
use quorum::counting::Counting;
use quorum::unfit::Unfit;
use report::Report;
use request::{ArgumentError, Request};
use std::alloc::{AllocError, Global};

pub mod arguments;
pub mod report;
pub mod request;
pub mod sets;

const USAGE: &str =
    "usage: survey counting N T    N stations, of which T may be faulty\n       survey sites S0 S1 ..  the site of each station\n";

// Tells of the survey of the system that was made, or why none was.
fn survey_made<S: QuorumSystem + Drop>(
    heap: Global,
    request: &Request,
    made: Result<S, Unfit>,
) -> Result<String, AllocError>
    ensures { IfOk result (λ text. MatchResult made
        (λ system. Reports (S.families system) (request_name request.now) (string_bytes text))
        (λ reason. string_bytes text ≡ declined_text reason)) }
{
    match made {
        Ok(system) => {
            let survey = Survey::of(heap, &system)?;
            let report = Report {
                survey: &survey,
                request,
            };
            format!(in heap; "{report}")
        }
        Err(reason) => {
            let number = Decline::from(reason).number();
            format!(in heap; "declined {number}: {reason}\n")
        }
    }
}

fn answer_request(heap: Global, request: &Request) -> Result<String, AllocError>
    ensures { IfOk result (λ text. Answers request.now (string_bytes text)) }
{
    match request {
        Request::Counting(n, t) => survey_made(heap, request, Counting::new(*n, *t)),
        Request::Sites(sites) => survey_made(heap, request, BySite::new(sites.as_slice())),
    }
}

// What the program prints for its arguments; where they ask for nothing, how to call it.
pub fn answer(heap: Global, words: &[String]) -> Result<String, AllocError>
    ensures { IfOk result (λ text. Answered (words_of words.now) (string_bytes text)) }
{
    match read_request(heap, words) {
        Ok(request) => answer_request(heap, &request),
        Err(ArgumentError::Unreadable) => String::from_str(heap, USAGE),
        // `?` cannot do this: the error's other case is no error here.
        Err(ArgumentError::NoMemory) => Err(AllocError),
    }
}
