//! What opening a bench fixes.

// How many stations there are, which of them are faulty, the highest number, the places of the pool, the opening value.
#[derive(Clone, Copy, PartialEq, Eq, Debug)]
pub struct Figures<V> {
    pub stations: usize,
    pub faulty: u16,
    pub highest: u64,
    pub places: usize,
    pub opening: V,
}
