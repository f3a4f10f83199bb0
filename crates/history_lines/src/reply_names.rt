//! The first words of replies.
ghost use Rattle.std.specs.Prelude.{◌≡◌, ◌≢◌, IfSome, IfNone};
ghost use Rattle.history_lines.specs.declared.reply_names.ReplyName.{ReplyName};
ghost use Rattle.history_lines.specs.ReplyNames.{name_word};

use text_words::same_word;

/// The first word of a reply.
#[derive(Clone, Copy)]
pub(crate) enum ReplyName {
    Ok,
    At,
    Bytes,
    Space,
    Moved,
    Done,
    Undone,
    Einval,
    NoSpace,
    NoSpaces,
    NoRoom,
    Exists,
    Hole,
    Segv,
    Denied,
    Bus,
    NoTables,
    NoFrames,
    NoSwap,
}

/// Each name.
const NAMES: [ReplyName; 19] = [
    ReplyName::Ok,
    ReplyName::At,
    ReplyName::Bytes,
    ReplyName::Space,
    ReplyName::Moved,
    ReplyName::Done,
    ReplyName::Undone,
    ReplyName::Einval,
    ReplyName::NoSpace,
    ReplyName::NoSpaces,
    ReplyName::NoRoom,
    ReplyName::Exists,
    ReplyName::Hole,
    ReplyName::Segv,
    ReplyName::Denied,
    ReplyName::Bus,
    ReplyName::NoTables,
    ReplyName::NoFrames,
    ReplyName::NoSwap,
];

/// The word of a name.
fn word_of(name: ReplyName) -> &'static [u8]
    ensures { result.now ≡ name_word name }
{
    match name {
        ReplyName::Ok => b"ok",
        ReplyName::At => b"at",
        ReplyName::Bytes => b"bytes",
        ReplyName::Space => b"space",
        ReplyName::Moved => b"moved",
        ReplyName::Done => b"done",
        ReplyName::Undone => b"undone",
        ReplyName::Einval => b"einval",
        ReplyName::NoSpace => b"nospace",
        ReplyName::NoSpaces => b"nospaces",
        ReplyName::NoRoom => b"noroom",
        ReplyName::Exists => b"exists",
        ReplyName::Hole => b"hole",
        ReplyName::Segv => b"segv",
        ReplyName::Denied => b"denied",
        ReplyName::Bus => b"bus",
        ReplyName::NoTables => b"notables",
        ReplyName::NoFrames => b"noframes",
        ReplyName::NoSwap => b"noswap",
    }
}

/// Which reply's first word this is.
pub(crate) fn reply_name(word: &[u8]) -> Option<ReplyName>
    ensures found { IfSome result (λ name. word.now ≡ name_word name) }
    ensures none { IfNone result ((name : ReplyName) → word.now ≢ name_word name) }
{
    for name in NAMES.as_slice() {
        if same_word(word, word_of(*name)) {
            return Some(*name);
        }
    }
    None
}
