//! What a station keeps.

// A station's operation. `done` and `reported` are sets of stations, as masks.
#[derive(Clone, Copy, PartialEq, Eq, Debug)]
pub enum Stage<V> {
    Idle,
    // Its write `number` is out; `done` have taken it.
    Writing {
        number: u64,
        done: u16,
    },
    // It asks how far the others are with a register; `reported` have told.
    Querying {
        register: usize,
        read: u64,
        reported: u16,
    },
    // It has noted what it will return; `done` are at least that far.
    Catching {
        register: usize,
        number: u64,
        value: V,
        done: u16,
    },
}

// A station's record: the opening value, the number of its last write, and its operation.
#[derive(Clone, Copy, PartialEq, Eq, Debug)]
pub struct Station<V> {
    pub opening: V,
    pub written: u64,
    pub stage: Stage<V>,
}

// A station's copy of a register, and what it has sent for the publication after it.
#[derive(Clone, Copy, PartialEq, Eq, Debug)]
pub struct RegisterCopy<V> {
    pub value: V,
    pub number: u64,
    pub echoed: bool,
    pub readied: bool,
}
