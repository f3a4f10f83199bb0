//! The table that the passes share, and its rule.
ghost use Rattle.std.specs.Prelude.{◌≡◌, ℕ, ◌+◌, [], ◌∷◌, Some, None};
ghost use Rattle.atomic_table.specs.Table.{rest};
ghost use Rattle.row_layout.specs.Places.{IsLayout, word_count};

use crate::plan::{Content, Plan};
use crate::rooms::Store;
use crate::view::PassView;
use atomic_table::{Play, Seat, Table, TableRule};
use row_layout::Layout;
use std::alloc::Global;
use std::collections::LinkedList;
use std::marker::PhantomData;
use std::snapshot::Snapshot;

pub(crate) type Slot<P> = Option<Content<<P as Plan>::Row, <P as Plan>::Book>>;

pub(crate) type Views<P> = LinkedList<
    PassView<<P as Plan>::Row, <P as Plan>::Book, <P as Plan>::Entry>,
>;

/// What the rule is told when the table is made: its sizes, and the book at the start as clauses see it.
#[derive(Drop)]
pub struct About<B> {
    pub layout: Layout,
    pub origin: Snapshot<B>,
}

pub struct Rule<P> {
    marker: PhantomData<P>,
}

impl<P: Plan> TableRule<Slot<P>, Views<P>, About<P::Book>> for Rule<P> {
    ghost use Rattle.row_table.specs.Rule.{Holds, boot_views};

    ghost holds = { λ about. Holds P.meaning about.layout about.origin.value };

    ghost first = { λ about. boot_views about.layout about.origin.value };
}

/// A table of rows with one book.
#[derive(Drop)]
pub struct Iron<P: Plan> {
    pub(crate) table: Table<Slot<P>, Views<P>, About<P::Book>, Rule<P>, Global>,
    pub(crate) layout: Layout,
    // What the table is closed into.
    pub(crate) rooms: Store<P::Row>,
    ghost stored: { (rooms.shared.table_id.slots ≡ 1) × (rooms.shared.key ≡ layout) },
    ghost sizes: { IsLayout layout },
    ghost sized: { (table.shared.table_id.words ≡ word_count layout) × (table.shared.table_id.slots ≡ layout.rows + 1) × (table.shared.key.layout ≡ layout) },
}

// The slot that the seat took last.
impl<P: Plan> Iron<P> {
    // The content of a row goes out.
    pub(crate) fn take_row(&self, seat: &mut Seat<Slot<P>, Views<P>>, row: u32) -> P::Row
        requires table { seat.old.table_id ≡ self.now.table.shared.table_id }
        requires front { (x : P.Row) × (seat.old.me.1 ≡ (row, Some (Content.Row x)) ∷ rest seat.old.me.1) }
        ensures table { seat.new.table_id ≡ seat.old.table_id }
        ensures front { seat.old.me.1 ≡ (row, Some (Content.Row result)) ∷ rest seat.old.me.1 }
        ensures seat { seat.new.me ≡ (seat.old.me.0, (row, None) ∷ rest seat.old.me.1) }
    {
        self.table
            .shared
            .exchange(seat, row as usize, None)
            .unwrap()
            .into_row()
    }

    // A row has this content again.
    pub(crate) fn put_row(&self, seat: &mut Seat<Slot<P>, Views<P>>, row: u32, content: P::Row)
        requires table { seat.old.table_id ≡ self.now.table.shared.table_id }
        requires front { seat.old.me.1 ≡ (row, None) ∷ rest seat.old.me.1 }
        ensures table { seat.new.table_id ≡ seat.old.table_id }
        ensures seat { seat.new.me ≡ (seat.old.me.0, (row, Some (Content.Row content)) ∷ rest seat.old.me.1) }
    {
        drop(
            self.table
                .shared
                .exchange(seat, row as usize, Some(Content::Row(content))),
        );
    }
}

impl<P: Plan> Iron<P> {
    // The book goes out.
    pub(crate) fn take_book(&self, seat: &mut Seat<Slot<P>, Views<P>>) -> P::Book
        requires table { seat.old.table_id ≡ self.now.table.shared.table_id }
        requires front { (b : P.Book) × (seat.old.me.1 ≡ (self.now.layout.rows, Some (Content.Book b)) ∷ rest seat.old.me.1) }
        ensures table { seat.new.table_id ≡ seat.old.table_id }
        ensures front { seat.old.me.1 ≡ (self.now.layout.rows, Some (Content.Book result)) ∷ rest seat.old.me.1 }
        ensures seat { seat.new.me ≡ (seat.old.me.0, (self.now.layout.rows, None) ∷ rest seat.old.me.1) }
    {
        let slot = self.layout.rows as usize;
        self.table
            .shared
            .exchange(seat, slot, None)
            .unwrap()
            .into_book()
    }

    // The book's slot has this book.
    pub(crate) fn put_book(&self, seat: &mut Seat<Slot<P>, Views<P>>, book: P::Book)
        requires table { seat.old.table_id ≡ self.now.table.shared.table_id }
        requires front { seat.old.me.1 ≡ (self.now.layout.rows, None) ∷ rest seat.old.me.1 }
        ensures table { seat.new.table_id ≡ seat.old.table_id }
        ensures seat { seat.new.me ≡ (seat.old.me.0, (self.now.layout.rows, Some (Content.Book book)) ∷ rest seat.old.me.1) }
    {
        let slot = self.layout.rows as usize;
        drop(
            self.table
                .shared
                .exchange(seat, slot, Some(Content::Book(book))),
        );
    }
}
