//! What is done with a transaction.
ghost use Rattle.std.specs.Prelude.{◌≡◌, ◌↔◌, ◌⊎◌, [], ◌∷◌, ◌++◌, length, Err, OnOk, OnErr, IfErr};
ghost use Rattle.mm_txn.specs.Txns.{txn_of, IsOpen};
ghost use Rattle.mm_txn.specs.Looking.{HasPage, Foretells};
ghost use Rattle.mm_txn.specs.Beginning.{Abandons};

use crate::machine::Pass;
use crate::txn::Txn;
use corten_base::{AddFault, Status, TxnOp};
use machine_plan::query;
use range_cursor::is_present;
use tree_lock::release_all;

#[tactic(auto, unfolding(crate::specs::Txns::txn_of, crate::specs::Machines::model_of))]
impl<'m> Txn<'m> {
    /// Gives all rows back as they were. No entry is made.
    pub fn abandon(self) -> Pass
        requires { IsOpen (txn_of self).held }
        ensures { Abandons (txn_of self.entry).held result }
    {
        let Txn {
            machine,
            pass,
            kit,
            space,
            range,
            at,
            len,
            ops,
        } = self;
        let mut pass = pass;
        let mut kit = kit;
        let _ = (space, at, len, ops);
        let Some(_) = range else {
            pass.put_kit(kit);
            return pass;
        };
        release_all(&mut pass, &machine.iron, &mut kit.1);
        pass.put_kit(kit);
        pass
    }

    /// What stands at a page of the range, without the operations that were added. None where the space is absent.
    pub fn look(&self, page: u64) -> Option<Status>
        requires is_open { IsOpen (txn_of self.now).held }
        requires page { HasPage (txn_of self.now).held.range page }
        ensures { Foretells (txn_of self.now).held page result }
    {
        let held = &self.kit.1;
        if !is_present(held, self.space.number()) {
            return None;
        }
        Some(query(held, page))
    }

    /// Adds an operation at the end. Nothing has changed where it is given back.
    pub fn add(&mut self, op: TxnOp) -> Result<(), AddFault>
        ensures held { (txn_of self.new).held ≡ (txn_of self.old).held }
        ensures added { OnOk result ((txn_of self.new).ops ≡ (txn_of self.old).ops ++ op ∷ []) }
        ensures full { (result ≡ Err (AddFault.Full op)) ↔ (length (txn_of self.old).ops ≡ 16) }
        ensures refused { OnErr result ((txn_of self.new).ops ≡ (txn_of self.old).ops) }
        ensures given_back { IfErr result (λ fault. (fault ≡ AddFault.Full op)
            ⊎ (fault ≡ AddFault.NoMemory op)) }
    {
        self.ops.push(op)
    }
}
