//! What the mapping database means: the definitions, as finite maps with origins and sets of places.
//!
//! `specs/` has the definitions, lowest first: Holdings, Derived, Lawful, Touch, Strip, Recursion, Items, Map, Grant,
//! Calls, Answers, Replay, Changes, Records, Text. Rows says how worked rows are written, and RowsOf.. have them, by
//! subject; the functions of `worked` show that their results are those of the definitions. docs/MODEL.md tells all of
//! it in words.
#![tactic(auto)]

mod laws;
mod worked;

pub use laws::{
    accesses, changes, clears, derivation, isolation, kept_status, lawful, outcomes, recursion,
    refusals, replays, sends, status, texts, unmaps,
};
pub use worked::{
    rows_of_access, rows_of_changes, rows_of_clears, rows_of_grants, rows_of_headers,
    rows_of_holdings, rows_of_maps, rows_of_outcomes, rows_of_records, rows_of_recursion,
    rows_of_text, rows_of_unmaps, rows_of_words,
};
