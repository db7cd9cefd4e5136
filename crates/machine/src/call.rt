//! The calls on a bench, and their answers. A call's numbers are as wide as a caller may spell them.

// What a bench is opened with: the faulty set, the highest number, the places of the pool, the opening value.
#[derive(Clone, Copy, PartialEq, Eq, Debug)]
pub struct Opening<V> {
    pub faulty: u16,
    pub highest: u64,
    pub places: u64,
    pub value: V,
}

// The fields of a message that is forged, whether its kind uses them or not.
#[derive(Clone, Copy, PartialEq, Eq, Debug)]
pub struct Forgery<V> {
    // A number, since a call may spell a kind that no message has.
    pub kind: u64,
    pub sender: u64,
    pub receiver: u64,
    pub register: u64,
    pub number: u64,
    pub read: u64,
    pub value: V,
}

#[derive(Clone, Copy, PartialEq, Eq, Debug)]
pub enum Call<V> {
    Open(Opening<V>),
    BeginWrite { station: u64, value: V },
    BeginRead { station: u64, register: u64 },
    Take { place: u64 },
    Forge(Forgery<V>),
    Withdraw { place: u64 },
    Count,
}

// What a call answers that is not declined. A call that is declined answers `Err` of its `Decline`.
#[derive(Clone, Copy, PartialEq, Eq, Debug)]
pub enum Answer<V> {
    // Opened, begun, taken, forged or withdrawn, and no operation ended.
    Done,
    WriteEnded {
        station: usize,
        number: u64,
    },
    ReadEnded {
        station: usize,
        register: usize,
        number: u64,
        value: V,
    },
    Counted {
        waiting: usize,
        takeable: usize,
    },
}
