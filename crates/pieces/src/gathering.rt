//! The results of a phase's pieces, gathered.

ghost use Rattle.std.specs.Prelude.{◌≡◌, ◌⊎◌, true, false, [], map, length, IfOk, IfErr, OnOk, is_none};
ghost use Rattle.std.specs.List.{flat_map, list_any};
ghost use Rattle.space.specs.Slices.{nodes_of};
ghost use Rattle.pieces.specs.Distinct.{are_distinct};
ghost use Rattle.pieces.specs.Gathering.{all_found, fault_in, has_stranger, numbers_of, union_of, IsGathered};
ghost use Rattle.pieces.specs.Places.{places_from};

use crate::done::Done;
use fpage::Rights;
use space::Slice;
use std::alloc::{AllocError, Global};

/// What the pieces of a phase found out, in the order of their numbers.
#[derive(Drop)]
pub struct Gathered {
    /// The nodes that each piece keeps.
    pub slices: Vec<Slice>,
    /// The union of all status.
    pub status: Rights,
    /// All answers.
    pub answers: Vec<bool>,
}

/// Why nothing is gathered.
#[derive(Clone, Copy, Debug, PartialEq, Eq)]
pub enum GatherFault {
    /// Memory was refused.
    NoMemory,
    /// A number is that of no piece.
    Stranger,
    /// A number comes twice.
    Twice,
    /// A piece is missing.
    Missing,
}

impl From<AllocError> for GatherFault {
    ghost use Rattle.std.specs.Prelude.{◌≡◌};
    ghost use Rattle.pieces.specs.declared.gathering.GatherFault.TheVariants.{NoMemory};

    ghost from_gives = { λ _ fault. fault ≡ NoMemory };

    fn from(_: AllocError) -> Self {
        GatherFault::NoMemory
    }
}

/// Why nothing is gathered, and what was given.
#[derive(Drop)]
pub struct GatherError {
    pub fault: GatherFault,
    pub given: Vec<Done>,
}

/// Gathers what so many pieces found out, in the order of their numbers, which count from 0.
///
/// Refused, the first that fits: `Stranger` for a number that is too high, `Twice` for one that comes twice, `Missing` where
/// one does not come; and `NoMemory`, which may come before `Twice` and `Missing`. What was given comes back with the error.
pub fn gather(alloc: Global, given: Vec<Done>, pieces: usize) -> Result<Gathered, GatherError>
    ensures ok { OnOk result (fault_in pieces given.items ≡ None) }
    ensures gathered { IfOk result (IsGathered (all_found pieces given.items)) }
    ensures fault { IfErr result (λ e. (e.fault ≡ GatherFault.NoMemory) ⊎ (fault_in pieces given.items ≡ Some e.fault)) }
    ensures stranger { has_stranger pieces given.items ≡ true → IfErr result (λ e. e.fault ≡ GatherFault.Stranger) }
    ensures handed_back { IfErr result (λ e. e.given.items ≡ given.items) }
{
    match found(alloc, &given, pieces) {
        Ok(mut gathered) => {
            take_slices(alloc, &mut gathered.slices, given);
            Ok(gathered)
        }
        Err(fault) => Err(GatherError { fault, given }),
    }
}

/// Status and answers, and a place for the nodes of each piece.
fn found(alloc: Global, given: &[Done], pieces: usize) -> Result<Gathered, GatherFault>
    ensures ok { OnOk result (fault_in pieces given.now ≡ None) }
    ensures slices { IfOk result (λ g. nodes_of g.slices.items ≡ map (λ v. v.kept) (all_found pieces [])) }
    ensures status { IfOk result (λ g. g.status ≡ union_of (map (λ v. v.status) (all_found pieces given.now))) }
    ensures answers { IfOk result (λ g. g.answers.items ≡ flat_map (λ v. v.answers) (all_found pieces given.now)) }
    ensures fault { IfErr result (λ e. (e ≡ GatherFault.NoMemory) ⊎ (fault_in pieces given.now ≡ Some e)) }
    ensures stranger { has_stranger pieces given.now ≡ true → IfErr result (λ e. e ≡ GatherFault.Stranger) }
{
    if has_stranger(given, pieces) {
        return Err(GatherFault::Stranger);
    }
    let places = places(alloc, given, pieces)?;
    if is_missing(&places) {
        return Err(GatherFault::Missing);
    }
    let status = all_status(given, &places);
    let answers = all_answers(alloc, given, &places)?;
    let slices = empty_slices(alloc, pieces)?;
    Ok(Gathered {
        slices,
        status,
        answers,
    })
}

/// Whether a number is that of no piece.
fn has_stranger(given: &[Done], pieces: usize) -> bool
    ensures { result ≡ has_stranger pieces given.now }
{
    given.iter().any(|done| done.number() >= pieces)
}

/// Whether a piece has no place.
fn is_missing(places: &[Option<usize>]) -> bool
    ensures { result ≡ list_any (λ p. is_none p) places.now }
{
    places.iter().any(|place| place.is_none())
}

/// For each number the position of the result that has it.
fn places(alloc: Global, given: &[Done], pieces: usize) -> Result<Vec<Option<usize>>, GatherFault>
    requires { has_stranger pieces given.now ≡ false }
    ensures places { IfOk result (λ ps. ps.items ≡ places_from pieces 0 given.now) }
    ensures distinct { OnOk result (are_distinct (numbers_of given.now) ≡ true) }
    ensures fault { IfErr result (λ e. (e ≡ GatherFault.NoMemory) ⊎ ((e ≡ GatherFault.Twice) × (are_distinct (numbers_of given.now) ≡ false))) }
{
    let mut places = vec![in alloc; None; pieces]?;
    let mut i = given.len();
    while i > 0 {
        i -= 1;
        let number = given[i].number();
        if places[number].is_some() {
            return Err(GatherFault::Twice);
        }
        places[number] = Some(i);
    }
    Ok(places)
}

/// The union of all status.
fn all_status(given: &[Done], places: &[Option<usize>]) -> Rights
    requires { places.now ≡ places_from (length places.now) 0 given.now }
    ensures { result ≡ union_of (map (λ v. v.status) (all_found (length places.now) given.now)) }
{
    let mut status = Rights::none();
    for place in places {
        if let Some(i) = *place {
            status = status.join(given[i].status());
        }
    }
    status
}

/// All answers.
fn all_answers(
    alloc: Global,
    given: &[Done],
    places: &[Option<usize>],
) -> Result<Vec<bool>, AllocError>
    requires { places.now ≡ places_from (length places.now) 0 given.now }
    ensures { IfOk result (λ answers. answers.items ≡ flat_map (λ v. v.answers) (all_found (length places.now) given.now)) }
{
    let mut answers = Vec::new(alloc);
    for place in places {
        if let Some(i) = *place {
            answers.extend_from_slice(given[i].answers())?;
        }
    }
    Ok(answers)
}

/// So many places for the nodes of a piece.
fn empty_slices(alloc: Global, n: usize) -> Result<Vec<Slice>, AllocError>
    ensures { IfOk result (λ slices. nodes_of slices.items ≡ map (λ v. v.kept) (all_found n [])) }
{
    let mut slices = Vec::with_capacity(alloc, n)?;
    for piece in 0..n {
        slices.push(Slice {
            nodes: Vec::new(alloc),
        })?;
    }
    Ok(slices)
}

/// Puts the nodes of each piece at its number.
fn take_slices(alloc: Global, slices: &mut [Slice], mut given: Vec<Done>)
    requires within { has_stranger (length slices.old) given.items ≡ false }
    requires empty { nodes_of slices.old ≡ map (λ v. v.kept) (all_found (length slices.old) []) }
    ensures { nodes_of slices.new ≡ map (λ v. v.kept) (all_found (length slices.old) given.items) }
{
    while let Some(done) = given.pop() {
        let number = done.number();
        slices[number] = done.into_kept(alloc);
    }
}
