//! Tests of databases, of traces and their replays, of audits and of the command line, as their callers see them.
#![tactic(auto)]

#[cfg(test)]
mod answers;
#[cfg(test)]
mod assertions;
#[cfg(test)]
mod audits;
#[cfg(test)]
mod command_line;
#[cfg(test)]
mod databases;
#[cfg(test)]
mod replays;
#[cfg(test)]
mod traces;
