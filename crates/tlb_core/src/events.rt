//! The events of the core, and their answers.

/// What happens to the table of pages, to the cache of a processor, or to a frame.
#[derive(Clone, Copy, PartialEq, Eq, Debug)]
pub enum TlbEvent {
    /// The table gets the page, with the least free frame.
    Map { page: u8 },
    /// The table loses the page. Its frame is pending from then on.
    Unmap { page: u8 },
    /// The processor caches the translation that the table has for the page.
    Fill { cpu: u8, page: u8 },
    /// The processor asks its cache for the page.
    Reach { cpu: u8, page: u8 },
    /// The processor's cache drops the page.
    Drop { cpu: u8, page: u8 },
    /// The processor's cache drops all that it has.
    Ack { cpu: u8 },
    /// A pending frame is to be free again.
    Free { frame: u8 },
}

/// The answer of an event.
#[derive(Clone, Copy, PartialEq, Eq, Debug)]
pub enum TlbAnswer {
    /// The page was mapped at this frame.
    At(u8),
    /// The table has the page already.
    Used,
    /// No frame is free.
    NoFree,
    /// The table does not have the page.
    None,
    /// It was done.
    Ok,
    /// The processor reaches this frame.
    Hit(u8),
    /// The processor's cache does not have the page.
    Miss,
    /// The frame is not pending.
    Idle,
    /// This processor may still reach the frame.
    Wait(u8),
}
