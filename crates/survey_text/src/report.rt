//! What the program prints of a survey.
ghost use Rattle.std.specs.Prelude.{Some};
ghost use Rattle.survey_text.specs.Printed.{request_name, survey_text};

use crate::request::Request;
use crate::sets::Lines;
use census::Survey;
use std::fmt;

// A survey, and the request for it.
#[derive(Clone, Copy)]
pub struct Report<'a> {
    pub survey: &'a Survey,
    pub request: &'a Request,
}

impl fmt::Display for Report<'_> {
    ghost output = { λ report. Some (survey_text (request_name report.request.now) report.survey.now) };

    fn fmt<W: fmt::Write>(&self, f: &mut fmt::Formatter<W>) -> fmt::Result {
        let survey = self.survey;
        write!(
            f,
            "largest allowed sets:\n{}\
             smallest quorums:\n{}\
             allowed sets: {}\n\
             quorums: {}\n\
             surveyed: {}\n",
            Lines(survey.largest_allowed.as_slice()),
            Lines(survey.smallest_quorums.as_slice()),
            survey.allowed_sets,
            survey.quorums,
            self.request
        )
    }
}
