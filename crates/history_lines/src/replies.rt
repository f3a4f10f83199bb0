//! Replies as words.
ghost use Rattle.std.specs.Prelude.{◌≡◌, ◌≢◌, ◌++◌, [], ◌∷◌, ℕ, List, OnOk, OnErr, IfOk, IfSome, IfNone, codes};
ghost use Rattle.text_words.specs.Spelling.{number, address, hex};
ghost use Rattle.text_words.specs.Layout.{joined};
ghost use Rattle.corten_base.specs.declared.calls.Reply.{Reply};
ghost use Rattle.corten_base.specs.declared.calls.Why.{Why};
ghost use Rattle.history_lines.specs.Replies.{reply_words, why_words, IsReply, IsWhy};
ghost use Rattle.history_lines.specs.Reading.{Reads, ReadsNone};

use crate::counts::{next_count, next_pair};
use crate::reply_names::{ReplyName, reply_name};
use corten_base::{Reply, Why};
use mm_script::{next_address, next_bytes, next_number, next_within};
use std::alloc::{AllocError, Global};
use text_words::{Word, Words, push_words};

/// Adds a word.
fn push_name(out: &mut Vec<u8>, name: &[u8]) -> Result<(), AllocError>
    ensures ok { OnOk result (out.new.items ≡ out.old.items ++ joined (name.now ∷ [])) }
    ensures err { OnErr result (out.new.items ≡ out.old.items) }
{
    push_words(out, &[Word::Plain(name)])
}

/// Adds a word and bytes.
fn push_bytes(out: &mut Vec<u8>, name: &[u8], bytes: &[u8]) -> Result<(), AllocError>
    ensures ok { OnOk result (out.new.items ≡ out.old.items ++ joined (name.now ∷ hex bytes.now ∷ [])) }
    ensures err { OnErr result (out.new.items ≡ out.old.items) }
{
    push_words(out, &[Word::Plain(name), Word::Hex(bytes)])
}

/// Adds a word and an address.
fn push_at(out: &mut Vec<u8>, name: &[u8], at: u64) -> Result<(), AllocError>
    ensures ok { OnOk result (out.new.items ≡ out.old.items ++ joined (name.now ∷ address at ∷ [])) }
    ensures err { OnErr result (out.new.items ≡ out.old.items) }
{
    push_words(out, &[Word::Plain(name), Word::Address(at)])
}

/// Adds a word and a number.
fn push_count(out: &mut Vec<u8>, name: &[u8], count: u64) -> Result<(), AllocError>
    ensures ok { OnOk result (out.new.items ≡ out.old.items ++ joined (name.now ∷ number count ∷ [])) }
    ensures err { OnErr result (out.new.items ≡ out.old.items) }
{
    push_words(out, &[Word::Plain(name), Word::Number(count)])
}

/// Adds a word and two numbers.
fn push_need(out: &mut Vec<u8>, name: &[u8], free: u32, need: u32) -> Result<(), AllocError>
    ensures ok { OnOk result (out.new.items ≡ out.old.items ++ joined (name.now ∷ number free ∷ number need ∷ [])) }
    ensures err { OnErr result (out.new.items ≡ out.old.items) }
{
    push_words(
        out,
        &[
            Word::Plain(name),
            Word::Number(u64::from(free)),
            Word::Number(u64::from(need)),
        ],
    )
}

/// Adds which operation of a transaction was refused, and why.
fn push_undone(out: &mut Vec<u8>, operation: u8, why: Why) -> Result<(), AllocError>
    ensures ok { OnOk result (out.new.items ≡ out.old.items ++ joined (reply_words (Reply.Undone operation why))) }
    ensures err { OnErr result (out.new.items ≡ out.old.items) }
{
    let operation = Word::Number(u64::from(operation));
    let undone = Word::Plain(b"undone");
    match why {
        Why::Einval => push_words(out, &[undone, operation, Word::Plain(b"einval")]),
        Why::Exists(at) => push_words(
            out,
            &[undone, operation, Word::Plain(b"exists"), Word::Address(at)],
        ),
        Why::Hole(at) => push_words(
            out,
            &[undone, operation, Word::Plain(b"hole"), Word::Address(at)],
        ),
    }
}

/// Adds how many page tables are linked, how many are in limbo, and how many are wanted.
fn push_no_tables(out: &mut Vec<u8>, linked: u32, limbo: u32, need: u64) -> Result<(), AllocError>
    ensures ok { OnOk result (out.new.items ≡ out.old.items ++ joined (reply_words (Reply.NoTables linked limbo need))) }
    ensures err { OnErr result (out.new.items ≡ out.old.items) }
{
    push_words(
        out,
        &[
            Word::Plain(b"notables"),
            Word::Number(u64::from(linked)),
            Word::Number(u64::from(limbo)),
            Word::Number(need),
        ],
    )
}

/// Adds a reply's words.
pub(crate) fn push_reply(out: &mut Vec<u8>, reply: &Reply) -> Result<(), AllocError>
    ensures ok { OnOk result (out.new.items ≡ out.old.items ++ joined (reply_words reply.now)) }
    ensures err { OnErr result (out.new.items ≡ out.old.items) }
{
    match reply {
        Reply::Ok => push_name(out, b"ok"),
        Reply::At(at) => push_at(out, b"at", *at),
        Reply::Bytes(bytes) => push_bytes(out, b"bytes", bytes.bytes()),
        Reply::Space(space) => push_count(out, b"space", u64::from(*space)),
        Reply::Moved(pages) => push_count(out, b"moved", u64::from(*pages)),
        Reply::Done => push_name(out, b"done"),
        Reply::Undone(operation, why) => push_undone(out, *operation, *why),
        Reply::Einval => push_name(out, b"einval"),
        Reply::NoSpace => push_name(out, b"nospace"),
        Reply::NoSpaces => push_name(out, b"nospaces"),
        Reply::NoRoom => push_name(out, b"noroom"),
        Reply::Exists(at) => push_at(out, b"exists", *at),
        Reply::Hole(at) => push_at(out, b"hole", *at),
        Reply::Segv(at) => push_at(out, b"segv", *at),
        Reply::Denied(at) => push_at(out, b"denied", *at),
        Reply::Bus(at) => push_at(out, b"bus", *at),
        Reply::NoTables {
            linked,
            limbo,
            need,
        } => push_no_tables(out, *linked, *limbo, *need),
        Reply::NoFrames { free, need } => push_need(out, b"noframes", *free, *need),
        Reply::NoSwap { free, need } => push_need(out, b"noswap", *free, *need),
    }
}

/// Takes the words of a reply from the front of those that are left.
pub(crate) fn next_reply(alloc: Global, words: &mut Words<'_>) -> Result<Option<Reply>, AllocError>
    ensures found { IfOk result (λ read. IfSome read (λ reply. IsReply reply × (words.old ≡ reply_words reply ++ words.new))) }
    ensures none { IfOk result (λ read. IfNone read ((reply : Reply) (rest : List (List ℕ)) →
        IsReply reply → words.old ≢ reply_words reply ++ rest)) }
{
    let Some(word) = words.next_word() else {
        return Ok(None);
    };
    let Some(name) = reply_name(word) else {
        return Ok(None);
    };
    match name {
        ReplyName::Ok => Ok(Some(Reply::Ok)),
        ReplyName::At => Ok(next_at(words)),
        ReplyName::Bytes => next_byte_list(alloc, words),
        ReplyName::Space => Ok(next_space(words)),
        ReplyName::Moved => Ok(next_moved(words)),
        ReplyName::Done => Ok(Some(Reply::Done)),
        ReplyName::Undone => Ok(next_undone(words)),
        ReplyName::Einval => Ok(Some(Reply::Einval)),
        ReplyName::NoSpace => Ok(Some(Reply::NoSpace)),
        ReplyName::NoSpaces => Ok(Some(Reply::NoSpaces)),
        ReplyName::NoRoom => Ok(Some(Reply::NoRoom)),
        ReplyName::Exists => Ok(next_exists(words)),
        ReplyName::Hole => Ok(next_hole(words)),
        ReplyName::Segv => Ok(next_segv(words)),
        ReplyName::Denied => Ok(next_denied(words)),
        ReplyName::Bus => Ok(next_bus(words)),
        ReplyName::NoTables => Ok(next_no_tables(words)),
        ReplyName::NoFrames => Ok(next_no_frames(words)),
        ReplyName::NoSwap => Ok(next_no_swap(words)),
    }
}

/// Takes the words of an `at` behind that word.
fn next_at(words: &mut Words<'_>) -> Option<Reply>
    ensures found { IfSome result (Reads (codes "at") words.old words.new) }
    ensures none { IfNone result (ReadsNone (codes "at") words.old) }
{
    Some(Reply::At(next_address(words)?))
}

/// Takes the words of a `bytes` behind that word.
fn next_byte_list(alloc: Global, words: &mut Words<'_>) -> Result<Option<Reply>, AllocError>
    ensures found { IfOk result (λ read. IfSome read (Reads (codes "bytes") words.old words.new)) }
    ensures none { IfOk result (λ read. IfNone read (ReadsNone (codes "bytes") words.old)) }
{
    let Some(bytes) = next_bytes(alloc, words)? else {
        return Ok(None);
    };
    Ok(Some(Reply::Bytes(bytes)))
}

/// Takes the words of a `space` behind that word.
fn next_space(words: &mut Words<'_>) -> Option<Reply>
    ensures found { IfSome result (Reads (codes "space") words.old words.new) }
    ensures none { IfNone result (ReadsNone (codes "space") words.old) }
{
    let space = next_within(words, 0, 63)?;
    Some(Reply::Space(space as u8))
}

/// Takes the words of a `moved` behind that word.
fn next_moved(words: &mut Words<'_>) -> Option<Reply>
    ensures found { IfSome result (Reads (codes "moved") words.old words.new) }
    ensures none { IfNone result (ReadsNone (codes "moved") words.old) }
{
    Some(Reply::Moved(next_count(words)?))
}

/// Takes the words of an `undone` behind that word.
fn next_undone(words: &mut Words<'_>) -> Option<Reply>
    ensures found { IfSome result (Reads (codes "undone") words.old words.new) }
    ensures none { IfNone result (ReadsNone (codes "undone") words.old) }
{
    let operation = next_within(words, 1, 16)?;
    let why = next_why(words)?;
    Some(Reply::Undone(operation as u8, why))
}

/// Takes the words of why an operation was refused.
fn next_why(words: &mut Words<'_>) -> Option<Why>
    ensures found { IfSome result (λ reason. IsWhy reason × (words.old ≡ why_words reason ++ words.new)) }
    ensures none { IfNone result ((reason : Why) (rest : List (List ℕ)) → IsWhy reason → words.old ≢ why_words reason ++ rest) }
{
    let Some(word) = words.next_word() else {
        return None;
    };
    let Some(name) = reply_name(word) else {
        return None;
    };
    match name {
        ReplyName::Einval => Some(Why::Einval),
        ReplyName::Exists => Some(Why::Exists(next_address(words)?)),
        ReplyName::Hole => Some(Why::Hole(next_address(words)?)),
        _ => None,
    }
}

/// Takes the words of an `exists` behind that word.
fn next_exists(words: &mut Words<'_>) -> Option<Reply>
    ensures found { IfSome result (Reads (codes "exists") words.old words.new) }
    ensures none { IfNone result (ReadsNone (codes "exists") words.old) }
{
    Some(Reply::Exists(next_address(words)?))
}

/// Takes the words of a `hole` behind that word.
fn next_hole(words: &mut Words<'_>) -> Option<Reply>
    ensures found { IfSome result (Reads (codes "hole") words.old words.new) }
    ensures none { IfNone result (ReadsNone (codes "hole") words.old) }
{
    Some(Reply::Hole(next_address(words)?))
}

/// Takes the words of a `segv` behind that word.
fn next_segv(words: &mut Words<'_>) -> Option<Reply>
    ensures found { IfSome result (Reads (codes "segv") words.old words.new) }
    ensures none { IfNone result (ReadsNone (codes "segv") words.old) }
{
    Some(Reply::Segv(next_address(words)?))
}

/// Takes the words of a `denied` behind that word.
fn next_denied(words: &mut Words<'_>) -> Option<Reply>
    ensures found { IfSome result (Reads (codes "denied") words.old words.new) }
    ensures none { IfNone result (ReadsNone (codes "denied") words.old) }
{
    Some(Reply::Denied(next_address(words)?))
}

/// Takes the words of a `bus` behind that word.
fn next_bus(words: &mut Words<'_>) -> Option<Reply>
    ensures found { IfSome result (Reads (codes "bus") words.old words.new) }
    ensures none { IfNone result (ReadsNone (codes "bus") words.old) }
{
    Some(Reply::Bus(next_address(words)?))
}

/// Takes the words of a `notables` behind that word.
fn next_no_tables(words: &mut Words<'_>) -> Option<Reply>
    ensures found { IfSome result (Reads (codes "notables") words.old words.new) }
    ensures none { IfNone result (ReadsNone (codes "notables") words.old) }
{
    let (linked, limbo) = next_pair(words)?;
    let need = next_number(words)?;
    Some(Reply::NoTables {
        linked,
        limbo,
        need,
    })
}

/// Takes the words of a `noframes` behind that word.
fn next_no_frames(words: &mut Words<'_>) -> Option<Reply>
    ensures found { IfSome result (Reads (codes "noframes") words.old words.new) }
    ensures none { IfNone result (ReadsNone (codes "noframes") words.old) }
{
    let (free, need) = next_pair(words)?;
    Some(Reply::NoFrames { free, need })
}

/// Takes the words of a `noswap` behind that word.
fn next_no_swap(words: &mut Words<'_>) -> Option<Reply>
    ensures found { IfSome result (Reads (codes "noswap") words.old words.new) }
    ensures none { IfNone result (ReadsNone (codes "noswap") words.old) }
{
    let (free, need) = next_pair(words)?;
    Some(Reply::NoSwap { free, need })
}
