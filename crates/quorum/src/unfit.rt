//! Why the figures of a quorum system break its limits.
ghost use Rattle.std.specs.Prelude.{◌≡◌, Some};
ghost use Rattle.quorum.specs.Reasons.{decline_of, why};

use decline::Decline;
use std::error::Error;
use std::fmt;

#[derive(Clone, Copy, PartialEq, Eq, Debug)]
pub enum Unfit {
    NoStations,
    // There are more than ten.
    TooManyStations,
    // Three times the faulty stations are not fewer than all stations.
    TooManyFaults,
    // The first site number above nine.
    NoSuchSite(u64),
    // Fewer than four occur.
    TooFewSites,
}

impl Unfit {
    // The reason in words. Only writing them may fail.
    fn words(self) -> &'static str
        ensures { result.now ≡ why self }
    {
        match self {
            Unfit::NoStations => "there is no station",
            Unfit::TooManyStations => "there are more than ten stations",
            Unfit::TooManyFaults =>
                "three times the faulty stations must be fewer than all stations",
            Unfit::NoSuchSite(_) => "site numbers are 0 to 9",
            Unfit::TooFewSites => "at least four sites must occur",
        }
    }
}

impl From<Unfit> for Decline {
    ghost from_gives = { λ reason r. r ≡ decline_of reason };

    fn from(reason: Unfit) -> Decline {
        match reason {
            Unfit::NoStations
            | Unfit::TooManyStations
            | Unfit::TooManyFaults
            | Unfit::NoSuchSite(_)
            | Unfit::TooFewSites => Decline::UnfitSystem,
        }
    }
}

impl fmt::Display for Unfit {
    ghost output = { λ reason. Some (why reason) };

    fn fmt<W: fmt::Write>(&self, f: &mut fmt::Formatter<W>) -> fmt::Result {
        f.write_str(self.words())
    }
}

impl Error for Unfit {}
