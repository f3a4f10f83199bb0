//! Each call of a pass on the table is the event of its name in the pure core (set up is two), as contracts of functions that do nothing.
ghost use Rattle.std.specs.Prelude.{◌≡◌, ℕ, List, slice_index, Ok};
ghost use Rattle.std.specs.List.{Contains};
ghost use Rattle.table_place.specs.declared.Place.{Place};
ghost use Rattle.walk_core.specs.declared.event.Event.{Event};
ghost use Rattle.walk_core.specs.declared.event.Event.TheVariants as event;
ghost use Rattle.walk_core.specs.declared.event.SetPart.TheVariants as part;
ghost use Rattle.walk_core.specs.declared.lists.PutRow.{PutRow};
ghost use Rattle.walk_core.specs.Words.{entry_at, lock_at, position_at, generation_at, epoch_at, book_at, held_by, stale, position_word};
ghost use Rattle.walk_core.specs.Events.{free_after, limbo_after};
ghost use Rattle.row_layout.specs.declared.places.Layout.{Layout};
ghost use Rattle.row_table.specs.declared.answers.Grabbed.TheVariants as grabbed;
ghost use Rattle.row_table.specs.declared.answers.Turned.TheVariants as turned;
ghost use Rattle.row_table.specs.declared.answers.Worn.{Worn};
ghost use Rattle.row_table.specs.declared.view.PassView.{PassView};
ghost use Rattle.row_table.specs.declared.view.HeldRow.{HeldRow};
ghost use Rattle.row_table.specs.Rule.{SameRows};
ghost use Rattle.row_table.specs.Known.{IsRight};
ghost use Rattle.row_table.specs.Stepping.{IsEvent, KeepsLists};
ghost use Rattle.row_table.specs.Crossings.{Enters, left};
ghost use Rattle.row_table.specs.Looks.{Looks};
ghost use Rattle.row_table.specs.Calls.{Grabs};
ghost use Rattle.row_table.specs.Moves.{released};
ghost use Rattle.row_table.specs.Books.{Turns, Gives, MayGive, give_of};
ghost use Rattle.row_table.specs.Openings.{placed, numbered, prepared, Opens};
ghost use Rattle.row_table.specs.Links.{Sets, Unlinks};

use crate::plan::Plan;

/// An enter that is not worn and a leave count on in the own epoch word, from the number that the pass keeps.
pub fn an_enter_and_a_leave_are_events<P: Plan>()
    ensures enter { (v w : PassView P.Row P.Book P.Entry) → Enters v (Ok tt) w → IsEvent (event.Enter v.number) (epoch_at v.layout.rows v.number) v.epoch w.epoch v w }
    ensures leave { (v : PassView P.Row P.Book P.Entry) → IsRight v → IsEvent (event.Leave v.number) (epoch_at v.layout.rows v.number) v.epoch (left v).epoch v (left v) }
{}

/// A look that answered this word left it.
pub fn a_look_is_an_event<P: Plan>()
    ensures { (v w : PassView P.Row P.Book P.Entry) (row index word : ℕ) → Looks row index v word w → IsEvent (event.Look v.number row index) (entry_at row index) word word v w }
{}

/// A grab found 0 in the lock word and left the pass's own where it took the row. It found the holder's word where it answered a holder, and else that
/// of a row that nobody may take, and left it.
pub fn a_grab_is_an_event<P: Plan>()
    ensures got { (v w : PassView P.Row P.Book P.Entry) (row : ℕ) (content : P.Row) → Grabs row v (grabbed.Got content) w → IsEvent (event.Grab v.number row) (lock_at row) 0 (held_by v.number) v w }
    ensures held { (v w : PassView P.Row P.Book P.Entry) (row holder : ℕ) → Grabs row v (grabbed.Held holder) w → IsEvent (event.Grab v.number row) (lock_at row) (held_by holder) (held_by holder) v w }
    ensures is_stale { (v w : PassView P.Row P.Book P.Entry) (row : ℕ) → Grabs row v grabbed.Stale w → IsEvent (event.Grab v.number row) (lock_at row) stale stale v w }
{}

/// A release leaves 0 in the lock word and a mark the word of a row that nobody may take, whatever they found there.
pub fn a_release_and_a_mark_are_events<P: Plan>()
    ensures release { (v : PassView P.Row P.Book P.Entry) (row found : ℕ) → IsEvent (event.Release v.number row) (lock_at row) found 0 v (released v row) }
    ensures mark { (v : PassView P.Row P.Book P.Entry) (row found : ℕ) → IsEvent (event.MarkStale v.number row) (lock_at row) found stale v (released v row) }
{}

/// A turn found 0 in the book's lock word and left the pass's own where it got the book, and else it found the holder's and left it. A give leaves 0. It puts, sweeps
/// and takes what tells the two books apart, and the lists of the new book are those of the event.
pub fn a_turn_and_a_give_are_events<P: Plan>()
    ensures got { (v w : PassView P.Row P.Book P.Entry) (rows : ℕ) (book : P.Book) → Turns P.meaning rows v (turned.Got book) w
        → IsEvent (event.Turn v.number) (book_at v.layout.rows v.layout.passes) 0 (held_by v.number) v w }
    ensures held { (v w : PassView P.Row P.Book P.Entry) (rows holder : ℕ) → Turns P.meaning rows v (turned.Held holder) w
        → IsEvent (event.Turn v.number) (book_at v.layout.rows v.layout.passes) (held_by holder) (held_by holder) v w }
    ensures give { (v w : PassView P.Row P.Book P.Entry) (new : P.Book) (found : ℕ) → (g : Gives P.meaning v new w)
        → IsEvent (give_of P.meaning v.number g.old new) (book_at v.layout.rows v.layout.passes) found 0 v w }
    ensures lists { (k : Layout) (v : PassView P.Row P.Book P.Entry) (old new : P.Book) → MayGive P.meaning k v old new
        → SameRows (free_after (give_of P.meaning v.number old new) (P.meaning.free old)) (P.meaning.free new)
        × (P.meaning.limbo new ≡ limbo_after (give_of P.meaning v.number old new) (P.meaning.limbo old)) }
{}

/// A set up is two events, one on each of the row's words.
pub fn a_set_up_is_two_events<P: Plan>()
    ensures position { (v : PassView P.Row P.Book P.Entry) (row found : ℕ) (place : Place)
        → IsEvent (event.SetUp v.number row (part.Position place)) (position_at row) found (position_word place) v (placed v row place) }
    ensures generation { (v : PassView P.Row P.Book P.Entry) (row found generation : ℕ)
        → IsEvent (event.SetUp v.number row (part.Generation generation)) (generation_at row) found generation v (numbered v row generation) }
    ensures both { (v : PassView P.Row P.Book P.Entry) (row generation : ℕ) (place : Place) → prepared v row place generation ≡ numbered (placed v row place) row generation }
{}

/// An opening leaves the pass's own word in the lock word, whatever it found there.
pub fn an_opening_is_an_event<P: Plan>()
    ensures { (v w : PassView P.Row P.Book P.Entry) (row found : ℕ) (content : P.Row) → Opens P.meaning row v content w
        → IsEvent (event.OpenRow v.number row) (lock_at row) found (held_by v.number) v w }
{}

/// A set entry leaves its word in the entry, whatever it found, and an unlink leaves 0 where it found the word that the view shows.
pub fn a_set_entry_and_an_unlink_are_events<P: Plan>()
    ensures sets { (v w : PassView P.Row P.Book P.Entry) (linker : HeldRow P.Row) (index word found : ℕ) → Contains v.rows linker → Sets linker.row index word v w
        → IsEvent (event.SetEntry v.number linker.row index word) (entry_at linker.row index) found word v w }
    ensures unlinks { (v w : PassView P.Row P.Book P.Entry) (linker : HeldRow P.Row) (index : ℕ) → Contains v.rows linker → Unlinks linker.row index v w
        → IsEvent (event.Unlink v.number linker.row index) (entry_at linker.row index) (slice_index linker.words index) 0 v w }
{}

/// A give alone changes the lists of the book.
pub fn other_events_keep_the_lists()
    ensures { (e : Event) → ((p : ℕ) (put : List PutRow) (swept taken : List ℕ) → ¬ (e ≡ event.Give p put swept taken)) → KeepsLists e }
{}
