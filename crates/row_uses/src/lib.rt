//! Callers of the shared table, over small plans. They rely on its public clauses, and their proofs cite two lemmas on the words of
//! these, `row_table`'s `Blank`.
#![tactic(auto)]

pub mod sowing;
pub mod uses;
