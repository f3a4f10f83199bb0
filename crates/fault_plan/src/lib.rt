//! What an access to a page has to do, from what stands at the page.
#![tactic(auto)]

mod laws;
mod rule;

pub use laws::{
    a_touched_page_keeps_what_it_came_from, decisions_are_those_of_the_page_map,
    decisions_cover_all_cases, decisions_exclude_each_other,
};
pub use rule::{Decision, decide};
