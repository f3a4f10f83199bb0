//! The first words of events.
ghost use Rattle.std.specs.Prelude.{◌≡◌, ◌≢◌, IfSome, IfNone};
ghost use Rattle.tlb_text.specs.declared.names.EventName.{EventName};
ghost use Rattle.tlb_text.specs.EventNames.{name_word};

/// The first word of an event.
#[derive(Clone, Copy, Debug, PartialEq, Eq)]
pub(crate) enum EventName {
    Map,
    Unmap,
    Fill,
    Reach,
    Drop,
    Ack,
    Free,
}

/// Which event's first word this is.
pub(crate) fn event_name(word: &[u8]) -> Option<EventName>
    ensures found { IfSome result (λ name. word.now ≡ name_word name) }
    ensures none { IfNone result ((name : EventName) → word.now ≢ name_word name) }
{
    if word == b"map".as_slice() {
        Some(EventName::Map)
    } else if word == b"unmap".as_slice() {
        Some(EventName::Unmap)
    } else if word == b"fill".as_slice() {
        Some(EventName::Fill)
    } else if word == b"reach".as_slice() {
        Some(EventName::Reach)
    } else if word == b"drop".as_slice() {
        Some(EventName::Drop)
    } else if word == b"ack".as_slice() {
        Some(EventName::Ack)
    } else if word == b"free".as_slice() {
        Some(EventName::Free)
    } else {
        None
    }
}
