//! The answers of another implementation to a trace, compared with those of l4map.
#![tactic(auto)]

mod all;
mod answers;
mod comparison;
mod form;
mod status;

pub use comparison::{
    CompareError, Compared, Comparison, Difference, Trees, compare, first_difference, replayed,
};
