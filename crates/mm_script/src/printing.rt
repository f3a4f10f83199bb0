//! The lines of calls, printed.
ghost use Rattle.std.specs.Prelude.{◌≡◌, ◌∷◌, ◌++◌, [], map, take, length, codes, IfOk, OnOk, OnErr};
ghost use Rattle.corten_base.specs.declared.calls.Call.{Call};
ghost use Rattle.text_words.specs.Spelling.{number, address};
ghost use Rattle.text_words.specs.Layout.{joined};
ghost use Rattle.text_words.specs.Printed.{spelled};
ghost use Rattle.mm_script.specs.CallLine.{place_words, backing_words, call_line};

use crate::printing_ops::push_ops;
use corten_base::{Backing, Call, MapPlace, Perm, SpaceId, TextBytes, TxnOp};
use std::alloc::{AllocError, Global};
use text_words::{Word, push_words};

/// Appends a space and words behind it, and without memory some bytes of them.
pub(crate) fn push_more(out: &mut Vec<u8>, words: &[Word<'_>]) -> Result<(), AllocError>
    ensures ok { OnOk result (out.new.items ≡ out.old.items ++ 32 ∷ joined (map spelled words.now)) }
    ensures err { OnErr result (take (length out.old.items) out.new.items ≡ out.old.items) }
{
    out.push(b' ')?;
    push_words(out, words)
}

/// Appends a space and the words of a place, and without memory some bytes of them.
fn push_place(out: &mut Vec<u8>, place: MapPlace) -> Result<(), AllocError>
    ensures ok { OnOk result (out.new.items ≡ out.old.items ++ 32 ∷ joined (place_words place)) }
    ensures err { OnErr result (take (length out.old.items) out.new.items ≡ out.old.items) }
{
    match place {
        MapPlace::Any => push_more(out, &[Word::Plain(b"any")]),
        MapPlace::At(at) => push_more(out, &[Word::Plain(b"at"), Word::Address(at)]),
        MapPlace::New(at) => push_more(out, &[Word::Plain(b"new"), Word::Address(at)]),
    }
}

/// Appends a space and the words of a backing, and without memory some bytes of them.
pub(crate) fn push_backing(out: &mut Vec<u8>, backing: Backing) -> Result<(), AllocError>
    ensures ok { OnOk result (out.new.items ≡ out.old.items ++ 32 ∷ joined (backing_words backing)) }
    ensures err { OnErr result (take (length out.old.items) out.new.items ≡ out.old.items) }
{
    match backing {
        Backing::Zero => push_more(out, &[Word::Plain(b"zero")]),
        Backing::File { file, index } => push_more(
            out,
            &[
                Word::Plain(b"file"),
                Word::Number(u64::from(file)),
                Word::Number(index),
            ],
        ),
    }
}

/// Appends the line of a `map`, and without memory some bytes of it.
fn push_map(
    out: &mut Vec<u8>,
    space: SpaceId,
    place: MapPlace,
    len: u64,
    perm: Perm,
    backing: Backing,
) -> Result<(), AllocError>
    ensures ok { OnOk result (out.new.items ≡ out.old.items ++ call_line (Call.Map space place len perm backing)) }
    ensures err { OnErr result (take (length out.old.items) out.new.items ≡ out.old.items) }
{
    let space = Word::Number(u64::from(space.number()));
    push_words(out, &[Word::Plain(b"map"), space])?;
    push_place(out, place)?;
    push_more(out, &[Word::Number(len), Word::Permission(perm)])?;
    push_backing(out, backing)
}

/// Appends a call's name and a space. Without memory nothing is appended.
fn push_space(out: &mut Vec<u8>, name: &[u8], space: SpaceId) -> Result<(), AllocError>
    ensures ok { OnOk result (out.new.items ≡ out.old.items ++ joined (name.now ∷ number space ∷ [])) }
    ensures err { OnErr result (out.new.items ≡ out.old.items) }
{
    push_words(
        out,
        &[Word::Plain(name), Word::Number(u64::from(space.number()))],
    )
}

/// Appends a call's name, a space, an address and a number. Without memory nothing is appended.
fn push_range(
    out: &mut Vec<u8>,
    name: &[u8],
    space: SpaceId,
    at: u64,
    len: u64,
) -> Result<(), AllocError>
    ensures ok { OnOk result (out.new.items ≡
        out.old.items ++ joined (name.now ∷ number space ∷ address at ∷ number len ∷ [])) }
    ensures err { OnErr result (out.new.items ≡ out.old.items) }
{
    push_words(
        out,
        &[
            Word::Plain(name),
            Word::Number(u64::from(space.number())),
            Word::Address(at),
            Word::Number(len),
        ],
    )
}

/// Appends a call's name, a space, an address and a last word. Without memory nothing is appended.
fn push_touch<'a>(
    out: &mut Vec<u8>,
    name: &'a [u8],
    space: SpaceId,
    at: u64,
    last: Word<'a>,
) -> Result<(), AllocError>
    ensures ok { OnOk result (out.new.items ≡
        out.old.items ++ joined (name.now ∷ number space ∷ address at ∷ spelled last.entry ∷ [])) }
    ensures err { OnErr result (out.new.items ≡ out.old.items) }
{
    push_words(
        out,
        &[
            Word::Plain(name),
            Word::Number(u64::from(space.number())),
            Word::Address(at),
            last,
        ],
    )
}

/// Appends the line of a `protect`, and without memory some bytes of it.
fn push_protect(
    out: &mut Vec<u8>,
    space: SpaceId,
    at: u64,
    len: u64,
    perm: Perm,
) -> Result<(), AllocError>
    ensures ok { OnOk result (out.new.items ≡ out.old.items ++ call_line (Call.Protect space at len perm)) }
    ensures err { OnErr result (take (length out.old.items) out.new.items ≡ out.old.items) }
{
    push_range(out, b"protect", space, at, len)?;
    push_more(out, &[Word::Permission(perm)])
}

/// Appends the line of a `remap`, and without memory some bytes of it.
fn push_remap(
    out: &mut Vec<u8>,
    space: SpaceId,
    at: u64,
    old_len: u64,
    new_len: u64,
) -> Result<(), AllocError>
    ensures ok { OnOk result (out.new.items ≡ out.old.items ++ call_line (Call.Remap space at old_len new_len)) }
    ensures err { OnErr result (take (length out.old.items) out.new.items ≡ out.old.items) }
{
    push_range(out, b"remap", space, at, old_len)?;
    push_more(out, &[Word::Number(new_len)])
}

/// Appends the line of a `txn`, and without memory some bytes of it.
fn push_txn(
    out: &mut Vec<u8>,
    space: SpaceId,
    at: u64,
    len: u64,
    ops: &[TxnOp],
) -> Result<(), AllocError>
    ensures ok { OnOk result (out.new.items ≡ out.old.items ++ call_line (Call.Txn space at len ops.now)) }
    ensures err { OnErr result (take (length out.old.items) out.new.items ≡ out.old.items) }
{
    push_range(out, b"txn", space, at, len)?;
    push_ops(out, ops)
}

/// Appends the line of a call, without a newline, and without memory some bytes of it.
fn push_parts(out: &mut Vec<u8>, call: &Call) -> Result<(), AllocError>
    ensures ok { OnOk result (out.new.items ≡ out.old.items ++ call_line call.now) }
    ensures err { OnErr result (take (length out.old.items) out.new.items ≡ out.old.items) }
{
    match call {
        Call::Map {
            space,
            place,
            len,
            perm,
            backing,
        } => push_map(out, *space, *place, *len, *perm, *backing),
        Call::Unmap { space, at, len } => push_range(out, b"unmap", *space, *at, *len),
        Call::Protect {
            space,
            at,
            len,
            perm,
        } => push_protect(out, *space, *at, *len, *perm),
        Call::Load { space, at, len } => { push_range(out, b"load", *space, *at, u64::from(*len)) }
        Call::Store { space, at, bytes } => {
            push_touch(out, b"store", *space, *at, Word::Hex(bytes.bytes()))
        }
        Call::Fault { space, at, write } => {
            let access = if *write { b"w" } else { b"r" };
            push_touch(out, b"fault", *space, *at, Word::Plain(access))
        }
        Call::Spawn => push_words(out, &[Word::Plain(b"spawn")]),
        Call::Fork { space } => push_space(out, b"fork", *space),
        Call::Exit { space } => push_space(out, b"exit", *space),
        Call::SwapOut { space, at, len } => push_range(out, b"out", *space, *at, *len),
        Call::SwapIn { space, at, len } => push_range(out, b"in", *space, *at, *len),
        Call::Txn {
            space,
            at,
            len,
            ops,
        } => push_txn(out, *space, *at, *len, ops.ops()),
        Call::DontNeed { space, at, len } => push_range(out, b"dontneed", *space, *at, *len),
        Call::Remap {
            space,
            at,
            old_len,
            new_len,
        } => push_remap(out, *space, *at, *old_len, *new_len),
    }
}

/// Appends the line of a call, without a newline. Without memory nothing is appended.
pub fn push_call(out: &mut Vec<u8>, call: &Call) -> Result<(), AllocError>
    ensures ok { OnOk result (out.new.items ≡ out.old.items ++ call_line call.now) }
    ensures err { OnErr result (out.new.items ≡ out.old.items) }
{
    let before = out.len();
    let pushed = push_parts(out, call);
    if pushed.is_err() {
        out.truncate(before);
    }
    pushed
}

/// The line of a call, without a newline.
pub fn print_call(alloc: Global, call: &Call) -> Result<TextBytes, AllocError>
    ensures { IfOk result (λ text. text ≡ call_line call.now) }
{
    let mut out = Vec::new(alloc);
    push_call(&mut out, call)?;
    Ok(TextBytes::of(out))
}
