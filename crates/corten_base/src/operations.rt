//! The operations of a transaction.
ghost use Rattle.std.specs.Prelude.{◌≡◌, ◌≤◌, ◌↔◌, ◌⊎◌, [], ◌∷◌, ◌++◌, length, Err, OnOk, OnErr, IfErr};

use crate::calls::TxnOp;
use std::alloc::{AllocError, Global};
use std::marker::Model;
use thiserror::Error;

/// The greatest number of operations of a transaction.
const GREATEST: usize = 16;

/// Why an operation was not added. It is given back.
#[derive(Debug, Drop, Error)]
pub enum AddFault {
    #[error("a transaction has at most 16 operations")]
    Full(TxnOp),
    #[error("out of memory")]
    NoMemory(TxnOp),
}

/// At most 16 operations of a transaction, in order.
#[derive(Debug, Drop)]
pub struct OpList {
    ops: Vec<TxnOp>,
}

impl Model for OpList {
    ghost use Rattle.std.specs.Prelude.{List, length, ◌≤◌};
    ghost use Rattle.corten_base.specs.declared.calls.TxnOp.{TxnOp};

    ghost Value = { List TxnOp };

    ghost view = { λ a. a.ops.items };

    ghost invariant = { λ a. length a.ops.items ≤ 16 };
}

impl OpList {
    /// No operation. It takes no memory.
    pub fn new(alloc: Global) -> OpList
        ensures { result ≡ [] }
    {
        OpList {
            ops: Vec::new(alloc),
        }
    }

    /// Adds an operation at the end.
    pub fn push(&mut self, op: TxnOp) -> Result<(), AddFault>
        ensures added { OnOk result (self.new ≡ self.old ++ op ∷ []) }
        ensures full { (result ≡ Err (AddFault.Full op)) ↔ (length self.old ≡ 16) }
        ensures refused { OnErr result (self.new ≡ self.old) }
        ensures given_back { IfErr result (λ fault. (fault ≡ AddFault.Full op) ⊎ (fault ≡ AddFault.NoMemory op)) }
    {
        if self.ops.len() >= GREATEST {
            return Err(AddFault::Full(op));
        }
        self.ops
            .push(op)
            .map_err(|failed| AddFault::NoMemory(failed.value))
    }

    /// The operations.
    pub fn ops(&self) -> &[TxnOp]
        ensures value { result.now ≡ self.now }
        ensures limit { length self.now ≤ 16 }
    {
        self.ops.as_slice()
    }
}

impl PartialEq for OpList {
    ghost use Rattle.std.specs.Cmp.Lexicographic.{pointwise, lists_per};
    ghost use Rattle.corten_base.specs.contracts.calls.TxnOpPartialEq.TheImpl.Laws.{laws-law};

    ghost eq = { pointwise ⟦<TxnOp as PartialEq>⟧.eq };

    ghost laws = { lists_per laws-law };

    fn eq(&self, other: &OpList) -> bool {
        self.ops == other.ops
    }
}

impl Eq for OpList {
    ghost use Rattle.std.specs.Cmp.Lexicographic.{lists_equiv};
    ghost use Rattle.corten_base.specs.contracts.calls.TxnOpEq.TheImpl.Laws.{laws-law};

    ghost laws = { lists_equiv laws-law };
}

impl Clone for OpList {
    ghost is_clone = { λ a b. b ≡ a };

    fn clone(&self) -> Result<OpList, AllocError> {
        Ok(OpList {
            ops: Vec::from_slice(*self.ops.allocator(), &self.ops)?,
        })
    }
}
