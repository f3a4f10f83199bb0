//! What holds of epochs and of rows that are used again, as contracts of functions that do nothing.
ghost use Rattle.std.specs.Prelude.{ℕ};
ghost use Rattle.walk_core.specs.declared.event.Event.TheVariants as event;
ghost use Rattle.walk_core.specs.Words.{epoch_at};
ghost use Rattle.row_layout.specs.declared.places.Layout.{Layout};
ghost use Rattle.row_table.specs.declared.view.PassView.{PassView};
ghost use Rattle.row_table.specs.Rule.{Table, Holds};
ghost use Rattle.row_table.specs.Stepping.{IsEvent};
ghost use Rattle.row_table.specs.Sampling.{Samples};
ghost use Rattle.row_table.specs.Reuse.{EpochsTrue, NoneRead};

use crate::plan::Plan;

/// A sample that answered this number left it in the other pass's epoch word.
pub fn a_sample_is_an_event<P: Plan>()
    ensures { (v w : PassView P.Row P.Book P.Entry) (other number : ℕ) → Samples P.meaning other v number w
        → IsEvent (event.Sample v.number other) (epoch_at v.layout.rows other) number number v w }
{}

/// Wherever the rule holds, the epoch word of each pass is odd while the pass is inside, and even while it is outside. So this is what a
/// sample finds, whichever pass takes it.
pub fn an_epoch_word_is_odd_while_its_pass_is_inside<P: Plan>()
    ensures { (k : Layout) (first : P.Book) (s : Table P.Row P.Book P.Entry) → Holds P.meaning k first s → EpochsTrue k s }
{}

/// Wherever the rule holds, no pass stands on a row that a give may take out of limbo, though the giver sampled each epoch word at
/// a step of its own.
pub fn no_pass_stands_on_a_swept_row<P: Plan>()
    ensures { (k : Layout) (first : P.Book) (s : Table P.Row P.Book P.Entry) → Holds P.meaning k first s → NoneRead P.meaning k s }
{}
