//! The operations of a transaction, printed.
ghost use Rattle.std.specs.Prelude.{◌≡◌, ◌∷◌, ◌++◌, take, length, OnOk, OnErr};
ghost use Rattle.text_words.specs.Layout.{joined};
ghost use Rattle.mm_script.specs.CallLine.{op_words, more_ops_words, ops_words, spaced};

use crate::printing::{push_backing, push_more};
use corten_base::TxnOp;
use std::alloc::AllocError;
use text_words::Word;

/// Appends a space and the words of an operation, and without memory some bytes of them.
fn push_op(out: &mut Vec<u8>, op: &TxnOp) -> Result<(), AllocError>
    ensures ok { OnOk result (out.new.items ≡ out.old.items ++ 32 ∷ joined (op_words op.now)) }
    ensures err { OnErr result (take (length out.old.items) out.new.items ≡ out.old.items) }
{
    match op {
        TxnOp::Map {
            at,
            fresh,
            len,
            perm,
            backing,
        } => {
            let place: &[u8] = if *fresh { b"new" } else { b"at" };
            push_more(
                out,
                &[
                    Word::Plain(b"map"),
                    Word::Plain(place),
                    Word::Address(*at),
                    Word::Number(*len),
                    Word::Permission(*perm),
                ],
            )?;
            push_backing(out, *backing)
        }
        TxnOp::Unmap { at, len } => push_more(
            out,
            &[
                Word::Plain(b"unmap"),
                Word::Address(*at),
                Word::Number(*len),
            ],
        ),
        TxnOp::Protect { at, len, perm } => push_more(
            out,
            &[
                Word::Plain(b"protect"),
                Word::Address(*at),
                Word::Number(*len),
                Word::Permission(*perm),
            ],
        ),
    }
}

/// Appends the words of operations, each behind the word `;`, and without memory some bytes of them.
fn push_more_ops(out: &mut Vec<u8>, ops: &[TxnOp]) -> Result<(), AllocError>
    ensures ok { OnOk result (out.new.items ≡ out.old.items ++ spaced (more_ops_words ops.now)) }
    ensures err { OnErr result (take (length out.old.items) out.new.items ≡ out.old.items) }
{
    for op in ops {
        push_more(out, &[Word::Plain(b";")])?;
        push_op(out, op)?;
    }
    Ok(())
}

/// Appends the words of operations, and without memory some bytes of them.
pub(crate) fn push_ops(out: &mut Vec<u8>, ops: &[TxnOp]) -> Result<(), AllocError>
    ensures ok { OnOk result (out.new.items ≡ out.old.items ++ spaced (ops_words ops.now)) }
    ensures err { OnErr result (take (length out.old.items) out.new.items ≡ out.old.items) }
{
    let Some((first, rest)) = ops.split_first() else {
        return Ok(());
    };
    push_op(out, first)?;
    push_more_ops(out, rest)
}
