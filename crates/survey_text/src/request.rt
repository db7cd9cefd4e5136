//! What the program's arguments ask for.
ghost use Rattle.std.specs.Prelude.{◌≡◌, Some};
ghost use Rattle.survey_text.specs.declared.request.ArgumentError.TheVariants.{Unreadable, NoMemory};
ghost use Rattle.survey_text.specs.Printed.{request_name};

use std::alloc::AllocFailed;
use std::fmt;
use std::num::ParseIntError;

#[derive(PartialEq, Eq, Debug, Drop)]
pub enum Request {
    // How many stations there are, and how many may be faulty.
    Counting(u64, u64),
    // The site of each station.
    Sites(Vec<u64>),
}

impl fmt::Display for Request {
    ghost output = { λ request. Some (request_name request) };

    fn fmt<W: fmt::Write>(&self, f: &mut fmt::Formatter<W>) -> fmt::Result {
        match self {
            Request::Counting(n, t) => write!(f, "counting {n} {t}"),
            Request::Sites(sites) => {
                write!(f, "sites")?;
                for site in sites {
                    write!(f, " {site}")?;
                }
                Ok(())
            }
        }
    }
}

// Why the arguments ask for nothing.
#[derive(Clone, Copy, PartialEq, Eq, Debug)]
pub enum ArgumentError {
    // One is missing, one is too many, or one is no number.
    Unreadable,
    NoMemory,
}

impl From<ParseIntError> for ArgumentError {
    ghost from_gives = { λ _ r. r ≡ Unreadable };

    fn from(_unread: ParseIntError) -> ArgumentError {
        ArgumentError::Unreadable
    }
}

impl<T: Drop> From<AllocFailed<T>> for ArgumentError {
    ghost from_gives = { λ _ r. r ≡ NoMemory };

    fn from(_refused: AllocFailed<T>) -> ArgumentError {
        ArgumentError::NoMemory
    }
}
