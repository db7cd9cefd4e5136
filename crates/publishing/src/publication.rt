//! What INIT, ECHO and READY carry.

// One write of a register on its way to the copies.
#[derive(Clone, Copy, PartialEq, Eq, Debug)]
pub struct Publication<V> {
    pub register: usize,
    pub number: u64,
    pub value: V,
}
