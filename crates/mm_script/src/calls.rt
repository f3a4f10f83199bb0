//! The lines of calls, read.
ghost use Rattle.std.specs.Prelude.{◌≡◌, ◌≢◌, ℕ, ◌<◌, Bool, List, ◌∷◌, ◌++◌, length, codes, All, IfOk, IfSome, IfNone};
ghost use Rattle.corten_base.specs.declared.permissions.Perm.{Perm};
ghost use Rattle.corten_base.specs.declared.calls.MapPlace.{MapPlace};
ghost use Rattle.corten_base.specs.declared.calls.Backing.{Backing};
ghost use Rattle.corten_base.specs.declared.calls.TxnOp.{TxnOp};
ghost use Rattle.corten_base.specs.declared.calls.Call.{Call};
ghost use Rattle.text_words.specs.Spelling.{number, address, hex, permission};
ghost use Rattle.mm_script.specs.CallLine.{place_words, backing_words, access_word, call_words, call_line, IsSpace, IsNumber, IsPlace, IsBacking, IsAccess, IsCall, ops_words, AreOps, IsNoMore, EndsCall};

use crate::call_names::{CallName, call_name};
use crate::call_words::{
    next_access, next_address, next_backing, next_bytes, next_number, next_perm, next_place,
    next_space, next_write,
};
use crate::ops::next_ops;
use corten_base::Call;
use std::alloc::{AllocError, Global};
use text_words::Words;

/// Takes the words of a call from the front of those that are left.
pub fn next_call(alloc: Global, words: &mut Words<'_>) -> Result<Option<Call>, AllocError>
    ensures found { IfOk result (λ read. IfSome read (λ call.
        IsCall call × EndsCall call words.new × (words.old ≡ call_words call ++ words.new))) }
    ensures none { IfOk result (λ read. IfNone read ((call : Call) (rest : List (List ℕ)) →
        IsCall call → EndsCall call rest → words.old ≢ call_words call ++ rest)) }
{
    let Some(word) = words.next_word() else {
        return Ok(None);
    };
    let Some(name) = call_name(word) else {
        return Ok(None);
    };
    match name {
        CallName::Map => Ok(next_map(words)),
        CallName::Unmap => Ok(next_unmap(words)),
        CallName::Protect => Ok(next_protect(words)),
        CallName::Load => Ok(next_load(words)),
        CallName::Store => next_store(alloc, words),
        CallName::Fault => Ok(next_fault(words)),
        CallName::Spawn => Ok(Some(Call::Spawn)),
        CallName::Fork => Ok(next_fork(words)),
        CallName::Exit => Ok(next_exit(words)),
        CallName::SwapOut => Ok(next_out(words)),
        CallName::SwapIn => Ok(next_in(words)),
        CallName::Txn => next_txn(alloc, words),
        CallName::DontNeed => Ok(next_dontneed(words)),
        CallName::Remap => Ok(next_remap(words)),
    }
}

/// Takes the words of a `map` behind that word.
fn next_map(words: &mut Words<'_>) -> Option<Call>
    ensures found { IfSome result (λ call. IsCall call × (codes "map" ∷ words.old ≡ call_words call ++ words.new)) }
    ensures none { IfNone result ((space len : ℕ) (at : MapPlace) (perm : Perm) (what : Backing) (rest : List (List ℕ)) →
        IsSpace space → IsPlace at → IsNumber len → IsBacking what →
        words.old ≢ number space ∷ (place_words at ++ (number len ∷ permission perm ∷ (backing_words what ++ rest)))) }
{
    Some(Call::Map {
        space: next_space(words)?,
        place: next_place(words)?,
        len: next_number(words)?,
        perm: next_perm(words)?,
        backing: next_backing(words)?,
    })
}

/// Takes the words of an `unmap` behind that word.
fn next_unmap(words: &mut Words<'_>) -> Option<Call>
    ensures found { IfSome result (λ call. IsCall call × (codes "unmap" ∷ words.old ≡ call_words call ++ words.new)) }
    ensures none { IfNone result ((space at len : ℕ) (rest : List (List ℕ)) →
        IsSpace space → IsNumber at → IsNumber len → words.old ≢ number space ∷ address at ∷ number len ∷ rest) }
{
    Some(Call::Unmap {
        space: next_space(words)?,
        at: next_address(words)?,
        len: next_number(words)?,
    })
}

/// Takes the words of a `protect` behind that word.
fn next_protect(words: &mut Words<'_>) -> Option<Call>
    ensures found { IfSome result (λ call. IsCall call × (codes "protect" ∷ words.old ≡ call_words call ++ words.new)) }
    ensures none { IfNone result ((space at len : ℕ) (perm : Perm) (rest : List (List ℕ)) →
        IsSpace space → IsNumber at → IsNumber len →
        words.old ≢ number space ∷ address at ∷ number len ∷ permission perm ∷ rest) }
{
    Some(Call::Protect {
        space: next_space(words)?,
        at: next_address(words)?,
        len: next_number(words)?,
        perm: next_perm(words)?,
    })
}

/// Takes the words of a `load` behind that word.
fn next_load(words: &mut Words<'_>) -> Option<Call>
    ensures found { IfSome result (λ call. IsCall call × (codes "load" ∷ words.old ≡ call_words call ++ words.new)) }
    ensures none { IfNone result ((space at len : ℕ) (rest : List (List ℕ)) →
        IsSpace space → IsNumber at → IsAccess len → words.old ≢ number space ∷ address at ∷ number len ∷ rest) }
{
    Some(Call::Load {
        space: next_space(words)?,
        at: next_address(words)?,
        len: next_access(words)?,
    })
}

/// Takes the words of a `store` behind that word.
fn next_store(alloc: Global, words: &mut Words<'_>) -> Result<Option<Call>, AllocError>
    ensures found { IfOk result (λ read. IfSome read (λ call.
        IsCall call × (codes "store" ∷ words.old ≡ call_words call ++ words.new))) }
    ensures none { IfOk result (λ read. IfNone read ((space at : ℕ) (bytes : List ℕ) (rest : List (List ℕ)) →
        IsSpace space → IsNumber at → IsAccess (length bytes) → All (λ b. b < 256) bytes →
        words.old ≢ number space ∷ address at ∷ hex bytes ∷ rest)) }
{
    let Some(space) = next_space(words) else {
        return Ok(None);
    };
    let Some(at) = next_address(words) else {
        return Ok(None);
    };
    let Some(bytes) = next_bytes(alloc, words)? else {
        return Ok(None);
    };
    Ok(Some(Call::Store { space, at, bytes }))
}

/// Takes the words of a `fault` behind that word.
fn next_fault(words: &mut Words<'_>) -> Option<Call>
    ensures found { IfSome result (λ call. IsCall call × (codes "fault" ∷ words.old ≡ call_words call ++ words.new)) }
    ensures none { IfNone result ((space at : ℕ) (write : Bool) (rest : List (List ℕ)) →
        IsSpace space → IsNumber at → words.old ≢ number space ∷ address at ∷ access_word write ∷ rest) }
{
    Some(Call::Fault {
        space: next_space(words)?,
        at: next_address(words)?,
        write: next_write(words)?,
    })
}

/// Takes the words of a `fork` behind that word.
fn next_fork(words: &mut Words<'_>) -> Option<Call>
    ensures found { IfSome result (λ call. IsCall call × (codes "fork" ∷ words.old ≡ call_words call ++ words.new)) }
    ensures none { IfNone result ((space : ℕ) (rest : List (List ℕ)) → IsSpace space → words.old ≢ number space ∷ rest) }
{
    Some(Call::Fork {
        space: next_space(words)?,
    })
}

/// Takes the words of an `exit` behind that word.
fn next_exit(words: &mut Words<'_>) -> Option<Call>
    ensures found { IfSome result (λ call. IsCall call × (codes "exit" ∷ words.old ≡ call_words call ++ words.new)) }
    ensures none { IfNone result ((space : ℕ) (rest : List (List ℕ)) → IsSpace space → words.old ≢ number space ∷ rest) }
{
    Some(Call::Exit {
        space: next_space(words)?,
    })
}

/// Takes the words of an `out` behind that word.
fn next_out(words: &mut Words<'_>) -> Option<Call>
    ensures found { IfSome result (λ call. IsCall call × (codes "out" ∷ words.old ≡ call_words call ++ words.new)) }
    ensures none { IfNone result ((space at len : ℕ) (rest : List (List ℕ)) →
        IsSpace space → IsNumber at → IsNumber len → words.old ≢ number space ∷ address at ∷ number len ∷ rest) }
{
    Some(Call::SwapOut {
        space: next_space(words)?,
        at: next_address(words)?,
        len: next_number(words)?,
    })
}

/// Takes the words of an `in` behind that word.
fn next_in(words: &mut Words<'_>) -> Option<Call>
    ensures found { IfSome result (λ call. IsCall call × (codes "in" ∷ words.old ≡ call_words call ++ words.new)) }
    ensures none { IfNone result ((space at len : ℕ) (rest : List (List ℕ)) →
        IsSpace space → IsNumber at → IsNumber len → words.old ≢ number space ∷ address at ∷ number len ∷ rest) }
{
    Some(Call::SwapIn {
        space: next_space(words)?,
        at: next_address(words)?,
        len: next_number(words)?,
    })
}

/// Takes the words of a `txn` behind that word.
fn next_txn(alloc: Global, words: &mut Words<'_>) -> Result<Option<Call>, AllocError>
    ensures found { IfOk result (λ read. IfSome read (λ call.
        IsCall call × EndsCall call words.new × (codes "txn" ∷ words.old ≡ call_words call ++ words.new))) }
    ensures none { IfOk result (λ read. IfNone read ((space at len : ℕ) (ops : List TxnOp) (rest : List (List ℕ)) →
        IsSpace space → IsNumber at → IsNumber len → AreOps ops → IsNoMore rest →
        words.old ≢ number space ∷ address at ∷ number len ∷ (ops_words ops ++ rest))) }
{
    let Some(space) = next_space(words) else {
        return Ok(None);
    };
    let Some(at) = next_address(words) else {
        return Ok(None);
    };
    let Some(len) = next_number(words) else {
        return Ok(None);
    };
    let Some(ops) = next_ops(alloc, words)? else {
        return Ok(None);
    };
    Ok(Some(Call::Txn {
        space,
        at,
        len,
        ops,
    }))
}

/// Takes the words of a `dontneed` behind that word.
fn next_dontneed(words: &mut Words<'_>) -> Option<Call>
    ensures found { IfSome result (λ call. IsCall call × (codes "dontneed" ∷ words.old ≡ call_words call ++ words.new)) }
    ensures none { IfNone result ((space at len : ℕ) (rest : List (List ℕ)) →
        IsSpace space → IsNumber at → IsNumber len → words.old ≢ number space ∷ address at ∷ number len ∷ rest) }
{
    Some(Call::DontNeed {
        space: next_space(words)?,
        at: next_address(words)?,
        len: next_number(words)?,
    })
}

/// Takes the words of a `remap` behind that word.
fn next_remap(words: &mut Words<'_>) -> Option<Call>
    ensures found { IfSome result (λ call. IsCall call × (codes "remap" ∷ words.old ≡ call_words call ++ words.new)) }
    ensures none { IfNone result ((space at old_len new_len : ℕ) (rest : List (List ℕ)) →
        IsSpace space → IsNumber at → IsNumber old_len → IsNumber new_len →
        words.old ≢ number space ∷ address at ∷ number old_len ∷ number new_len ∷ rest) }
{
    Some(Call::Remap {
        space: next_space(words)?,
        at: next_address(words)?,
        old_len: next_number(words)?,
        new_len: next_number(words)?,
    })
}

/// The call whose line this is.
pub fn read_call(alloc: Global, line: &[u8]) -> Result<Option<Call>, AllocError>
    ensures found { IfOk result (λ read. IfSome read (λ call. IsCall call × (line.now ≡ call_line call))) }
    ensures none { IfOk result (λ read. IfNone read ((call : Call) → IsCall call → line.now ≢ call_line call)) }
{
    let mut words = Words::of(line);
    let call = next_call(alloc, &mut words)?;
    if words.is_done() { Ok(call) } else { Ok(None) }
}
