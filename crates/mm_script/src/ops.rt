//! The operations of a transaction, read.
ghost use Rattle.std.specs.Prelude.{◌≡◌, ◌≢◌, ℕ, ◌<◌, Bool, List, [], ◌∷◌, ◌++◌, length, codes, IfOk, IfSome, IfNone, OnOk};
ghost use Rattle.corten_base.specs.declared.permissions.Perm.{Perm};
ghost use Rattle.corten_base.specs.declared.calls.Backing.{Backing};
ghost use Rattle.corten_base.specs.declared.calls.TxnOp.{TxnOp};
ghost use Rattle.text_words.specs.Spelling.{number, address, permission};
ghost use Rattle.mm_script.specs.CallLine.{fresh_word, backing_words, op_words, ops_words, IsNumber, IsBacking, IsOp, AreOps, IsNoMore};

use crate::call_words::{next_address, next_backing, next_number, next_perm};
use crate::op_names::{OpName, op_name};
use corten_base::{AddFault, OpList, TxnOp};
use std::alloc::{AllocError, Global};
use text_words::Words;

/// The most operations of a transaction.
const MOST_OPS: usize = 16;

/// Whether a mapping needs an empty place, by the next word.
fn next_fresh(words: &mut Words<'_>) -> Option<bool>
    ensures found { IfSome result (λ fresh. words.old ≡ fresh_word fresh ∷ words.new) }
    ensures none { IfNone result ((fresh : Bool) (rest : List (List ℕ)) → words.old ≢ fresh_word fresh ∷ rest) }
{
    if words.take_word(b"at") {
        Some(false)
    } else if words.take_word(b"new") {
        Some(true)
    } else {
        None
    }
}

/// Takes the words of a `map` behind that word.
fn next_map_op(words: &mut Words<'_>) -> Option<TxnOp>
    ensures found { IfSome result (λ op. IsOp op × (codes "map" ∷ words.old ≡ op_words op ++ words.new)) }
    ensures none { IfNone result ((at len : ℕ) (fresh : Bool) (perm : Perm) (what : Backing) (rest : List (List ℕ)) →
        IsNumber at → IsNumber len → IsBacking what →
        words.old ≢ fresh_word fresh ∷ address at ∷ number len ∷ permission perm ∷ (backing_words what ++ rest)) }
{
    let fresh = next_fresh(words)?;
    Some(TxnOp::Map {
        at: next_address(words)?,
        fresh,
        len: next_number(words)?,
        perm: next_perm(words)?,
        backing: next_backing(words)?,
    })
}

/// Takes the words of an `unmap` behind that word.
fn next_unmap_op(words: &mut Words<'_>) -> Option<TxnOp>
    ensures found { IfSome result (λ op. IsOp op × (codes "unmap" ∷ words.old ≡ op_words op ++ words.new)) }
    ensures none { IfNone result ((at len : ℕ) (rest : List (List ℕ)) →
        IsNumber at → IsNumber len → words.old ≢ address at ∷ number len ∷ rest) }
{
    Some(TxnOp::Unmap {
        at: next_address(words)?,
        len: next_number(words)?,
    })
}

/// Takes the words of a `protect` behind that word.
fn next_protect_op(words: &mut Words<'_>) -> Option<TxnOp>
    ensures found { IfSome result (λ op. IsOp op × (codes "protect" ∷ words.old ≡ op_words op ++ words.new)) }
    ensures none { IfNone result ((at len : ℕ) (perm : Perm) (rest : List (List ℕ)) →
        IsNumber at → IsNumber len → words.old ≢ address at ∷ number len ∷ permission perm ∷ rest) }
{
    Some(TxnOp::Protect {
        at: next_address(words)?,
        len: next_number(words)?,
        perm: next_perm(words)?,
    })
}

/// Takes the words of an operation.
fn next_op(words: &mut Words<'_>) -> Option<TxnOp>
    ensures found { IfSome result (λ op. IsOp op × (words.old ≡ op_words op ++ words.new)) }
    ensures none { IfNone result ((op : TxnOp) (rest : List (List ℕ)) → IsOp op → words.old ≢ op_words op ++ rest) }
{
    let name = op_name(words.next_word()?)?;
    match name {
        OpName::Map => next_map_op(words),
        OpName::Unmap => next_unmap_op(words),
        OpName::Protect => next_protect_op(words),
    }
}

/// Adds an operation to fewer than 16.
fn add_op(ops: &mut OpList, op: TxnOp) -> Result<(), AllocError>
    requires { length ops.old < 16 }
    ensures { OnOk result (ops.new ≡ ops.old ++ op ∷ []) }
{
    match ops.push(op) {
        Ok(()) => Ok(()),
        Err(AddFault::NoMemory(_)) => Err(AllocError),
        Err(AddFault::Full(_)) => unreachable!(),
    }
}

/// Takes the words of 1 to 16 operations.
pub(crate) fn next_ops(alloc: Global, words: &mut Words<'_>) -> Result<Option<OpList>, AllocError>
    ensures found { IfOk result (λ read. IfSome read (λ ops. AreOps ops × IsNoMore words.new × (words.old ≡ ops_words ops ++ words.new))) }
    ensures none { IfOk result (λ read. IfNone read ((ops : List TxnOp) (rest : List (List ℕ)) →
        AreOps ops → IsNoMore rest → words.old ≢ ops_words ops ++ rest)) }
{
    let mut ops = OpList::new(alloc);
    let Some(first) = next_op(words) else {
        return Ok(None);
    };
    add_op(&mut ops, first)?;
    while words.take_word(b";") {
        if ops.ops().len() == MOST_OPS {
            return Ok(None);
        }
        let Some(op) = next_op(words) else {
            return Ok(None);
        };
        add_op(&mut ops, op)?;
    }
    Ok(Some(ops))
}
