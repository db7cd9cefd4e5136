//! The eight messages that stations send to one another.

// Every message names its sender and its receiver. They stand in each variant, and not in a struct around the enum, since
// what they are to a message differs by its kind: INIT is about its sender's register and WRITE_DONE about its
// receiver's; the others name theirs. A register and a number stand in several variants, and mean another thing in each.
// A write is known by its number, a reading by its read number.
#[derive(Clone, Copy, PartialEq, Eq, Debug)]
pub enum Message<V> {
    Init {
        sender: usize,
        receiver: usize,
        number: u64,
        value: V,
    },
    Echo {
        sender: usize,
        receiver: usize,
        register: usize,
        number: u64,
        value: V,
    },
    Ready {
        sender: usize,
        receiver: usize,
        register: usize,
        number: u64,
        value: V,
    },
    WriteDone {
        sender: usize,
        receiver: usize,
        number: u64,
    },
    Read {
        sender: usize,
        receiver: usize,
        register: usize,
        read: u64,
    },
    State {
        sender: usize,
        receiver: usize,
        register: usize,
        read: u64,
        number: u64,
    },
    CatchUp {
        sender: usize,
        receiver: usize,
        register: usize,
        number: u64,
    },
    CatchUpDone {
        sender: usize,
        receiver: usize,
        register: usize,
        number: u64,
    },
}
