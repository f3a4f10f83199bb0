//! Zones: what a call must hold of the page tables.

/// What a call must hold of the page tables.
#[derive(Clone, Copy, Debug, PartialEq, Eq)]
pub enum Zone {
    /// The pages of a range. Where it is strict, the span of the highest row that is held is greater than the range.
    Pages {
        space: u8,
        first: u64,
        count: u64,
        strict: bool,
    },
    /// Every table of a space, and the directory.
    Space {
        space: u8,
    },
    /// The directory alone.
    Directory,
}
