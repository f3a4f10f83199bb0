//! How a transaction is committed.
ghost use Rattle.std.specs.Prelude.{◌≡◌, ℕ};
ghost use Rattle.corten_base.specs.declared.calls.Call.{Call as AnyCall};
ghost use Rattle.call_steps.specs.Ready.{View};
ghost use Rattle.call_steps.specs.Given.{Outcome};
ghost use Rattle.mm_txn.specs.Txns.{txn_of, IsOpen};
ghost use Rattle.mm_txn.specs.Committing.{Concludes, IsFinished};

use crate::machine::Pass;
use crate::txn::Txn;
use book::{Answered, JournalFull};
use call_steps::{answer_transaction, forget_plan};
use std::sync::Wait;

/// Why a call made no entry. Nothing has changed.
#[derive(Drop)]
pub enum Stopped {
    /// The pass has entered as often as its epoch word can count.
    Worn,
    /// The journal has no place for one more entry.
    JournalFull,
}

/// What a commit gives back, with its answer.
#[derive(Drop)]
pub struct Finished {
    pub pass: Pass,
    pub outcome: Result<Answered, Stopped>,
}

// The answer, as calls give it.
fn concluded(outcome: Result<Answered, JournalFull>) -> Result<Answered, Stopped>
    ensures { (thread : ℕ) (c : AnyCall) (v w : View) → Outcome thread c v w outcome → Concludes thread c v w result }
{
    match outcome {
        Ok(answered) => Ok(answered),
        Err(_) => Err(Stopped::JournalFull),
    }
}

#[tactic(auto, unfolding(crate::specs::Txns::txn_of, crate::specs::Machines::model_of))]
impl<'m> Txn<'m> {
    /// Does the operations in order, all or none, as one entry of the journal, once no other pass has the book. All rows
    /// go back. Only a full journal makes no entry.
    pub fn commit(self, rt: &impl Wait) -> Finished
        requires { IsOpen (txn_of self).held }
        ensures { IsFinished (txn_of self.entry) result.pass result.outcome }
    {
        let Txn {
            machine,
            pass,
            kit,
            space,
            range,
            at,
            len,
            ops,
        } = self;
        let mut pass = pass;
        let mut kit = kit;
        let _ = range;
        let outcome = answer_transaction(
            rt,
            &mut pass,
            &machine.iron,
            &mut kit.1,
            &mut kit.0,
            space,
            at,
            len,
            ops,
        );
        forget_plan(&mut kit.0);
        pass.put_kit(kit);
        Finished {
            pass,
            outcome: concluded(outcome),
        }
    }
}
