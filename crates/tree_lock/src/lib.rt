//! The lock on a subtree of the page tables: the rows that cover a zone.
#![tactic(auto)]

mod attempt;
mod below;
mod cover_laws;
mod descent;
mod held;
mod order;
mod release;
mod waiting;
mod ways;
mod zone;

pub use attempt::{Tried, try_cover};
pub use cover_laws::{
    a_cover_stays_with_its_rows, a_pass_that_covers_a_zone_holds_its_cover,
    a_zone_of_pages_has_one_top, an_absent_space_is_covered_by_row_0,
    the_list_of_a_cover_has_its_rows, two_passes_cover_no_common_page,
};
pub use held::{Held, HeldRow};
pub use order::{
    a_table_is_before_its_children, a_wider_span_is_before, each_table_has_a_spelled_position,
    positions_are_in_one_order,
};
pub use release::release_all;
pub use waiting::cover;
pub use zone::Zone;
