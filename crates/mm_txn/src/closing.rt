//! How a machine is closed.
ghost use Rattle.std.specs.Prelude.{◌≡◌, map};
ghost use Rattle.std.specs.List.{All};
ghost use Rattle.page_map.specs.State.{accounts};
ghost use Rattle.row_table.specs.Passes.{view_of, number_of};
ghost use Rattle.row_table.specs.Close.{HasAll, IsIdle};
ghost use Rattle.machine_plan.specs.Books.{state_of};
ghost use Rattle.mm_txn.specs.Machines.{model_of, IsMember};
ghost use Rattle.mm_txn.specs.Ending.{closed_model, ClosesInto};

use crate::closed::{CloseAnswer, Closed};
use crate::machine::{Machine, Pass};
use book::the_counts_of_a_book_are_those_of_its_state;
use book_sweep::free_limbo;
use corten_base::{Accounts, Entry};
use row_table::{IronClose, Parts};

#[tactic(auto, unfolding(crate::specs::Ending::closed_model))]
impl Closed {
    /// The answered calls, in order.
    pub fn entries(&self) -> &[Entry]
        ensures { result.now ≡ (closed_model self.now).book.journal }
    {
        self.book.entries()
    }

    /// What is in use after the last entry. No row is in limbo.
    pub fn accounts(&self) -> Accounts
        ensures { result ≡ accounts (state_of (closed_model self.now).book) 0 }
    {
        self.book.accounts()
    }

    /// The epoch word of each pass, in the order of their numbers. Each is even.
    pub fn epochs(&self) -> &[u64]
        ensures { result.now ≡ (closed_model self.now).epochs }
    {
        self.epochs.as_slice()
    }
}

#[tactic(auto, unfolding(crate::specs::Machines::model_of, crate::specs::Ending::closed_model))]
impl Machine {
    /// The journal and the accounts of the machine, if all of its passes are given back. They are outside and have nothing. The
    /// rows in limbo become free.
    pub fn close(self, passes: Vec<Pass>) -> CloseAnswer
        requires members { All (IsMember self) passes.items }
        requires idle { All (λ p. IsIdle (view_of p)) passes.items }
        ensures closed { (c : _) → result ≡ CloseAnswer.Closed c → HasAll (model_of self).table.layout.passes (map (λ p. number_of p) passes.items)
            × ClosesInto (model_of self) (map (λ p. view_of p) passes.items) c }
        ensures not_all { (m : _) (back : _) → result ≡ CloseAnswer.NotAll m back
            → ¬ HasAll (model_of self).table.layout.passes (map (λ p. number_of p) passes.items)
            × (model_of m ≡ model_of self) × (back ≡ passes) }
    {
        let Machine {
            iron,
            greatest,
            files,
            name,
        } = self;
        match iron.close(passes) {
            IronClose::Closed(parts) => {
                let Parts {
                    words: _,
                    epochs,
                    rows: _,
                    mut book,
                } = parts;
                free_limbo(&mut book);
                the_counts_of_a_book_are_those_of_its_state(&book);
                CloseAnswer::Closed(Closed { book, epochs, name })
            }
            IronClose::NotAll(iron, passes) => CloseAnswer::NotAll(
                Machine {
                    iron,
                    greatest,
                    files,
                    name,
                },
                passes,
            ),
        }
    }
}
