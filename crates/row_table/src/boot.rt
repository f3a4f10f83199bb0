//! How a table is made.
ghost use Rattle.std.specs.Prelude.{◌≡◌, ℕ, ◌+◌, ◌<◌, ◌≤◌, List, [], ◌∷◌, length, map, IfOk, Some};
ghost use Rattle.std.specs.List.{All, range_with_len};
ghost use Rattle.std.specs.VecDeque.{deque_capacity};
ghost use Rattle.walk_core.specs.Words.{word_count};
ghost use Rattle.walk_core.specs.Core.{word};
ghost use Rattle.row_layout.specs.Places.{IsLayout};
ghost use Rattle.row_table.specs.Rule.{unmoved, boot_from};
ghost use Rattle.row_table.specs.Passes.{view_of, number_of, kit_of, layout_of, origin_of, IsPassOf};
ghost use Rattle.row_table.specs.Start.{MayStart, start_words, start_slots, first_pass, other_passes};

use crate::pass::Pass;
use crate::plan::{Content, Plan};
use crate::rooms::store;
use crate::table::{About, Iron, Slot, Views};
use crate::view::PassView;
use atomic_table::{Seat, Split, Table};
use row_layout::Layout;
use std::alloc::{AllocError, Global};
use std::collections::{LinkedList, VecDeque};
use std::snapshot::Snapshot;
use walk_core::Core;

pub struct Apart;

impl<R, B, E> Split<LinkedList<PassView<R, B, E>>> for Apart {
    ghost use Rattle.row_table.specs.Start.{first_pass, other_passes};

    ghost left = { other_passes };

    ghost right = { first_pass };
}

// The words of a core, from the first on.
fn words_of(alloc: Global, core: &Core, count: u32) -> Result<Vec<u64>, AllocError>
    requires { count ≡ word_count core.now.rows core.now.count }
    ensures { IfOk result (λ words. words.items ≡ map (word core.now) (range_with_len 0 count)) }
{
    let mut words = Vec::with_capacity(alloc, count as usize)?;
    for place in 0..count {
        words.push(core.word(place))?;
    }
    Ok(words)
}

// Those of the pure core at the start.
fn boot_words(alloc: Global, layout: &Layout) -> Result<Vec<u64>, AllocError>
    requires { IsLayout layout.now }
    ensures { IfOk result (λ words. words.items ≡ start_words layout.now) }
{
    let start = Core::boot(alloc, layout.rows, layout.passes, layout.levels)?;
    words_of(alloc, &start, layout.book() + 1)
}

fn slots_of<P: Plan>(
    alloc: Global,
    rows: Vec<P::Row>,
    book: P::Book,
) -> Result<Vec<Slot<P>>, AllocError>
    ensures { IfOk result (λ slots. slots.items ≡ start_slots rows.items book) }
{
    let mut slots = Vec::with_capacity(alloc, rows.len())?;
    for row in rows {
        slots.push(Some(Content::Row(row)))?;
    }
    slots.push(Some(Content::Book(book)))?;
    Ok(slots)
}

#[tactic(auto, unfolding(crate::specs::Passes::model_of, crate::specs::Passes::iron_model))]
impl<P: Plan> Iron<P> {
    // The first of the seat's passes gets a seat of its own.
    fn cut(
        &self,
        seat: &mut Seat<Slot<P>, Views<P>>,
        number: u8,
        stack: VecDeque<u32>,
        kit: P::Kit,
    ) -> Pass<P>
        requires table { seat.old.table_id ≡ self.now.table.shared.table_id }
        requires first { (more : _) × (seat.old.me ≡ (unmoved self.now.layout (Some self.now.table.shared.key.origin.value) number ∷ more, [])) }
        requires number { number < self.now.layout.passes }
        requires stack { (stack.items ≡ []) × (self.now.layout.rows + 1 ≤ deque_capacity stack) }
        ensures table { (seat.new.table_id ≡ self.now.table.shared.table_id) × IsPassOf self.now result }
        ensures seat { seat.new.me ≡ (other_passes seat.old.me.0, []) }
        ensures view { view_of result ≡ unmoved self.now.layout (Some self.now.table.shared.key.origin.value) number }
        ensures number { (number_of result ≡ number) × (kit_of result ≡ Some kit) }
    {
        Pass {
            seat: self.table.shared.split_seat::<Apart>(seat),
            number,
            epoch: 0,
            rows: self.layout.rows,
            stack,
            kit: Some(kit),
        }
    }
}

impl<P: Plan> Iron<P> {
    // A seat and a kit for each pass.
    fn deal(
        &self,
        alloc: Global,
        mut seat: Seat<Slot<P>, Views<P>>,
        kits: Vec<P::Kit>,
    ) -> Result<Vec<Pass<P>>, AllocError>
        requires table { seat.table_id ≡ self.now.table.shared.table_id }
        requires seat { seat.me ≡ (boot_from self.now.layout (Some self.now.table.shared.key.origin.value) 0 self.now.layout.passes, []) }
        requires kits { length kits.items ≡ self.now.layout.passes }
        ensures numbers { IfOk result (λ passes. map (λ p. number_of p) passes.items ≡ range_with_len 0 self.now.layout.passes) }
        ensures kits { IfOk result (λ passes. map (λ p. kit_of p) passes.items ≡ map (λ kit. Some kit) kits.items) }
        ensures views { IfOk result (λ passes. All (λ p. IsPassOf self.now p × (view_of p ≡ unmoved self.now.layout (Some self.now.table.shared.key.origin.value) (number_of p))) passes.items) }
    {
        let mut passes = Vec::with_capacity(alloc, kits.len())?;
        for kit in kits {
            let stack = VecDeque::with_capacity(alloc, self.layout.rows as usize + 1)?;
            let number = passes.len() as u8;
            let pass = self.cut(&mut seat, number, stack, kit);
            passes.push(pass)?;
        }
        Ok(passes)
    }
}

#[tactic(auto, unfolding(crate::specs::Passes::model_of, crate::specs::Passes::iron_model))]
impl<P: Plan> Iron<P> {
    /// A table at its start, and the passes in the order of their numbers: row 0 is the directory, row 1 is the root of space 0,
    /// and all others are free. Each pass is outside and holds nothing.
    pub fn new(
        alloc: Global,
        layout: Layout,
        rows: Vec<P::Row>,
        book: P::Book,
        kits: Vec<P::Kit>,
    ) -> Result<(Iron<P>, Vec<Pass<P>>), AllocError>
        requires layout { IsLayout layout }
        requires starts { MayStart P.meaning layout rows.items book }
        requires kits { length kits.items ≡ layout.passes }
        ensures layout { IfOk result (λ made. layout_of made.0 ≡ layout) }
        ensures origin { IfOk result (λ made. origin_of made.0 ≡ Some book) }
        ensures numbers { IfOk result (λ made. map (λ p. number_of p) made.1.items ≡ range_with_len 0 layout.passes) }
        ensures kits { IfOk result (λ made. map (λ p. kit_of p) made.1.items ≡ map (λ kit. Some kit) kits.items) }
        ensures views { IfOk result (λ made. All (λ p. IsPassOf made.0 p × (view_of p ≡ unmoved layout (Some book) (number_of p))) made.1.items) }
    {
        let about = About {
            layout,
            origin: Snapshot::of(&book),
        };
        let words = boot_words(alloc, &layout)?;
        let rooms = store::<P::Row>(alloc, &layout, words.len())?;
        let slots = slots_of::<P>(alloc, rows, book)?;
        let Ok((table, seat)) = Table::new(alloc, words.as_slice(), slots, &about) else {
            return Err(AllocError);
        };
        let iron = Iron {
            table,
            layout,
            rooms,
        };
        let passes = iron.deal(alloc, seat, kits)?;
        Ok((iron, passes))
    }

    /// The layout that `new` was given.
    pub fn layout(&self) -> &Layout
        ensures layout { result.now ≡ layout_of self.now }
        ensures sizes { IsLayout (layout_of self.now) }
    {
        &self.layout
    }
}
