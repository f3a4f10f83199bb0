//! The first words of calls.
ghost use Rattle.std.specs.Prelude.{◌≡◌, ◌≢◌, IfSome, IfNone};
ghost use Rattle.mm_script.specs.declared.call_names.CallName.{CallName};
ghost use Rattle.mm_script.specs.CallNames.{name_word};

use text_words::same_word;

/// The first word of a call.
#[derive(Clone, Copy)]
pub(crate) enum CallName {
    Map,
    Unmap,
    Protect,
    Load,
    Store,
    Fault,
    Spawn,
    Fork,
    Exit,
    SwapOut,
    SwapIn,
    Txn,
    DontNeed,
    Remap,
}

/// Each name.
const NAMES: [CallName; 14] = [
    CallName::Map,
    CallName::Unmap,
    CallName::Protect,
    CallName::Load,
    CallName::Store,
    CallName::Fault,
    CallName::Spawn,
    CallName::Fork,
    CallName::Exit,
    CallName::SwapOut,
    CallName::SwapIn,
    CallName::Txn,
    CallName::DontNeed,
    CallName::Remap,
];

/// The word of a name.
fn word_of(name: CallName) -> &'static [u8]
    ensures { result.now ≡ name_word name }
{
    match name {
        CallName::Map => b"map",
        CallName::Unmap => b"unmap",
        CallName::Protect => b"protect",
        CallName::Load => b"load",
        CallName::Store => b"store",
        CallName::Fault => b"fault",
        CallName::Spawn => b"spawn",
        CallName::Fork => b"fork",
        CallName::Exit => b"exit",
        CallName::SwapOut => b"out",
        CallName::SwapIn => b"in",
        CallName::Txn => b"txn",
        CallName::DontNeed => b"dontneed",
        CallName::Remap => b"remap",
    }
}

/// The name that is tried first: the first letters tell which one it can be.
fn likely(word: &[u8]) -> CallName {
    match word {
        [b'd', ..] => CallName::DontNeed,
        [b'e', ..] => CallName::Exit,
        [b'f', b'a', ..] => CallName::Fault,
        [b'f', ..] => CallName::Fork,
        [b'i', ..] => CallName::SwapIn,
        [b'l', ..] => CallName::Load,
        [b'o', ..] => CallName::SwapOut,
        [b'p', ..] => CallName::Protect,
        [b'r', ..] => CallName::Remap,
        [b's', b't', ..] => CallName::Store,
        [b's', ..] => CallName::Spawn,
        [b't', ..] => CallName::Txn,
        [b'u', ..] => CallName::Unmap,
        _ => CallName::Map,
    }
}

/// Which name's word this is, by all names in turn.
fn any_name(word: &[u8]) -> Option<CallName>
    ensures found { IfSome result (λ name. word.now ≡ name_word name) }
    ensures none { IfNone result ((name : CallName) → word.now ≢ name_word name) }
{
    for name in NAMES.as_slice() {
        if same_word(word, word_of(*name)) {
            return Some(*name);
        }
    }
    None
}

/// Which call's first word this is.
pub(crate) fn call_name(word: &[u8]) -> Option<CallName>
    ensures found { IfSome result (λ name. word.now ≡ name_word name) }
    ensures none { IfNone result ((name : CallName) → word.now ≢ name_word name) }
{
    let first = likely(word);
    if same_word(word, word_of(first)) {
        Some(first)
    } else {
        any_name(word)
    }
}
