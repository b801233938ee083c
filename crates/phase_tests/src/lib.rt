//! Tests of phases, in pieces, by turns and by workers, as their callers see them.
#![tactic(auto)]

#[cfg(test)]
mod assertions;
#[cfg(test)]
mod by_turns;
#[cfg(test)]
mod by_workers;
#[cfg(test)]
mod changes;
#[cfg(test)]
mod gates;
#[cfg(test)]
mod observers;
#[cfg(test)]
mod piecewise;
#[cfg(test)]
mod random;
#[cfg(test)]
mod readiness;
#[cfg(test)]
mod threads;
#[cfg(test)]
mod times;
#[cfg(test)]
mod watchers;
