//! The access rule's table has one right decision for each case, and it is what the page map's access does.
ghost use Rattle.std.specs.Prelude.{◌≡◌, ℕ, ◌≤◌, Bool, List, Option, Some, None};
ghost use Rattle.corten_base.specs.declared.numbers.Status.{Status};
ghost use Rattle.page_map.specs.declared.cell.Cell.{Cell};
ghost use Rattle.page_map.specs.Cell.{status_of, backing_of, frame_of};
ghost use Rattle.page_map.specs.Takes.{Grant};
ghost use Rattle.page_map.specs.State.{State, frame_owners};
ghost use Rattle.page_map.specs.Access.{Access, refused_at, wants_frame, touched};
ghost use Rattle.fault_plan.specs.declared.rule.Decision.{Decision};
ghost use Rattle.fault_plan.specs.Access.{Rule, IsMapped};
ghost use Rattle.fault_plan.specs.Accesses.{lies_past_end, refusal, takes_frame, comes_from};

/// The decisions exclude each other.
pub fn decisions_exclude_each_other()
    ensures { (a b : Decision) (cell : Status) (write : Bool) (owners : ℕ) (past_end : Bool) →
        Rule a cell write owners past_end → Rule b cell write owners past_end → a ≡ b }
{}

/// One of them is right in each case, where a mapped page's frame has an owner.
pub fn decisions_cover_all_cases()
    ensures { (cell : Status) (write : Bool) (owners : ℕ) (past_end : Bool) →
        (IsMapped cell → 1 ≤ owners) → (d : Decision) × Rule d cell write owners past_end }
{}

/// The right decision is what the page map's access does at the page: it is refused for the same, and takes a frame
/// where the decision does.
pub fn decisions_are_those_of_the_page_map()
    ensures refused { (st : State) (page : ℕ) (at : Option Cell) (write : Bool) (owners : ℕ) (d : Decision) →
        Rule d (status_of at) write owners (lies_past_end st.files at) → refused_at st.files write page at ≡ refusal d page }
    ensures taken { (st : State) (page : ℕ) (cell : Cell) (write : Bool) (owners : ℕ) (d : Decision) →
        Rule d (status_of (Some cell)) write owners (lies_past_end st.files (Some cell)) → refused_at st.files write page (Some cell) ≡ None →
        ((frame : ℕ) → frame_of cell ≡ Some frame → owners ≡ frame_owners st frame) → wants_frame st write cell ≡ takes_frame d }
{}

/// A touched page keeps what it came from: zeros or its file's page at the first touch, and later what it came from before.
pub fn a_touched_page_keeps_what_it_came_from()
    ensures { (files : List (List ℕ)) (grants : Grant) (a : Access) (page : ℕ) (cell : Cell) (write : Bool) (owners : ℕ) (past_end : Bool) (d : Decision) →
        Rule d (status_of (Some cell)) write owners past_end → refusal d page ≡ None → backing_of (touched files grants a page cell) ≡ comes_from d cell }
{}
