//! What a frame is used for.

/// What a frame is used for.
#[derive(Clone, Copy, PartialEq, Eq, Debug)]
pub(crate) enum FrameUse {
    /// For nothing.
    Free,
    /// For a page of the table.
    Mapped,
    /// For nothing again once each processor whose bit is 1 has dropped the page, which the table had with the frame before.
    Pending { page: u8, unheard: u8 },
}
