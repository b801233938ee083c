//! Tests of fpages, of entries and of derivation trees, as their callers see them.
#![tactic(auto)]

#[cfg(test)]
mod assertions;
#[cfg(test)]
mod entries;
#[cfg(test)]
mod fpages;
#[cfg(test)]
mod trees;
