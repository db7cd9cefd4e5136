//! Why a call is declined. Each reason has one number, which programs print.
#![tactic(auto)]

ghost use Rattle.std.specs.Prelude.{◌≡◌};
ghost use Rattle.decline.specs.Numbers.{number_of};

#[derive(Clone, Copy, PartialEq, Eq, Debug)]
pub enum Decline {
    // The bench is closed.
    Closed = 1,
    // The bench is open already.
    AlreadyOpen,
    // The number of stations, the highest number or the pool's size is outside its limits, or a table is too short.
    OutsideLimits,
    // The faulty set is not allowed.
    NotAllowed,
    // The quorum system handed in has another size than the bench.
    OtherSize,
    // No station, or no register where one is used, has that number.
    NoSuchStation,
    // A faulty station cannot begin an operation, and only a faulty one's messages are forged or withdrawn.
    WrongSide,
    // A forged message has no kind, or a number outside its range.
    BadForgery,
    // The station has an operation open.
    NotIdle,
    // The station's write or read numbers are used up.
    NumbersUsedUp,
    // No message waits at that place.
    NoSuchMessage,
    // The message is ahead of its receiver's copy.
    Ahead,
    // The pool has too few free places.
    PoolFull,
    // The figures of a quorum system break its limits.
    UnfitSystem,
}

impl Decline {
    // `as` is the language's own conversion of an enum; a `From` would say the same again.
    pub fn number(self) -> u8
        ensures { result ≡ number_of self }
    {
        self as u8
    }
}
