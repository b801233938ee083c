//! Each call on large trees. Where a number of nodes is asked for behind the test's name, it tells for each call how often
//! it was made, how many nanoseconds that took, and the sum of the answers: bench/trees.py reads these lines.

ghost use Rattle.std.specs.Prelude.{◌≡◌, ◌+◌, ◌*◌, ◌<◌, nat_lt, true, None, OnOk, length, position};
ghost use Rattle.std.specs.List.{All, list_all};
ghost use Rattle.space.specs.Place.{same_place};
ghost use Rattle.maptree.specs.Origins.{AreRising, IsRun};

use super::cuts::{cut_at, nodes_in, put_back, put_back_at};
use crate::assertions::assert_equal;
use maptree::Tree;
use space::{NoMemory, Place};
use std::alloc::{AllocError, Global};
use std::ops::Range;
use std::process::Abort;
use std::rt::Runtime;
use std::test::Fail;
use std::time::Instant;
use std::{env, io};

/// How often each call is made on a tree.
const CALLS: u32 = 1_000;

/// How often a call that is about many nodes at once.
const PASSES: u32 = 20;

/// How many nodes a part has at most.
const MOST: usize = 256;

/// From which place each other derives.
#[derive(Clone, Copy)]
enum Form {
    Chain,
    Fan,
    Random,
}

impl Form {
    fn name(self) -> &'static str {
        match self {
            Form::Chain => "chain",
            Form::Fan => "fan",
            Form::Random => "random",
        }
    }

    /// The number of the place from which the nth derives.
    fn origin(self, n: u32) -> u32 {
        match self {
            Form::Chain => n.saturating_sub(1),
            Form::Fan => 0,
            Form::Random => n.wrapping_mul(2_654_435_761) / 8 % n.max(1),
        }
    }
}

/// The nth place.
pub fn nth_place(n: u32) -> Place
    ensures { result.page * 512 + result.space ≡ n }
{
    Place {
        space: (n % 512) as u16,
        page: n / 512,
    }
}

/// The number of a place.
fn number_of(place: Place) -> usize {
    place.page as usize * 512 + place.space as usize
}

/// A tree of numbered places. All numbers are below that of the next place, so that it is new without a search for it.
#[derive(Drop)]
struct Numbered {
    tree: Tree,
    /// How many nodes the tree has.
    len: usize,
    /// The number of the next place.
    next: u32,
    ghost some: { 0 < len },
    ghost counted: { len ≡ length tree.links },
    ghost below: { list_all (λ o. nat_lt (o.0.page * 512 + o.0.space) next) tree.links ≡ true },
}

impl Numbered {
    /// A tree of the place 0.
    fn root(alloc: Global) -> Numbered {
        let tree = Tree::root(alloc, nth_place(0));
        Numbered {
            tree,
            len: 1,
            next: 1,
        }
    }

    /// The next place.
    fn fresh(&self) -> Place
        ensures number { result.page * 512 + result.space ≡ self.now.next }
        ensures new { position (λ o. same_place result o.0) self.now.tree.links ≡ None }
    {
        nth_place(self.next)
    }

    /// Puts the next place below a node.
    fn grow(&mut self, rt: &impl Abort, at: usize) -> Result<(), NoMemory>
        requires { at < self.old.len }
    {
        let (Some(len), Some(next)) = (self.len.checked_add(1), self.next.checked_add(1)) else {
            panic!(rt; "the tree is full");
        };
        let place = self.fresh();
        self.tree.reserve(1)?;
        self.tree.insert_below(at, place);
        self.len = len;
        self.next = next;
        Ok(())
    }

    /// Gives a node the next place.
    fn rename(&mut self, rt: &impl Abort, at: usize)
        requires { at < self.old.len }
    {
        let Some(next) = self.next.checked_add(1) else {
            panic!(rt; "there are no more places");
        };
        let place = self.fresh();
        self.tree.rename(at, place);
        self.next = next;
    }

    /// Puts the next place below another, where that is in the tree; whether it is.
    fn grow_below(&mut self, rt: &impl Abort, origin: Place) -> Result<bool, NoMemory> {
        match self.tree.find(origin) {
            Some(at) => {
                self.grow(rt, at)?;
                Ok(true)
            }
            None => Ok(false),
        }
    }

    /// The position that the nth call is about.
    fn position(&self, n: u32) -> usize
        ensures { result < self.now.len }
    {
        (n as usize).wrapping_mul(7919) % self.len
    }
}

/// A tree of so many nodes.
fn large_tree(
    rt: &impl Abort,
    alloc: Global,
    form: Form,
    nodes: u32,
) -> Result<Numbered, NoMemory> {
    let mut made = Numbered::root(alloc);
    for n in 1..nodes {
        let grown = made.grow_below(rt, nth_place(form.origin(n)))?;
        assert_equal(rt, (n, grown), (n, true), "the origin is in the tree");
    }
    Ok(made)
}

/// The number of the place that the nth call on so many places is about.
fn nth_number(n: u32, places: u32) -> u32 {
    n.wrapping_mul(7919) % places.max(1)
}

/// Every tenth place.
fn every_tenth(alloc: Global, nodes: u32) -> Result<Vec<Place>, NoMemory> {
    let mut places = Vec::with_capacity(alloc, nodes as usize / 10 + 1)?;
    for n in 1..nodes / 10 {
        places
            .push(nth_place(n.wrapping_mul(10)))
            .map_err(AllocError::from)?;
    }
    Ok(places)
}

/// The calls that are made on a tree, in this order.
const MADE: [&str; 13] = [
    "make",
    "find",
    "run_of",
    "place_of_origin",
    "origin_of",
    "is_origin",
    "outer_runs",
    "cut+splice",
    "find+rename",
    "find+insert_below",
    "cut+splice_one",
    "cut_one",
    "links",
];

/// What some calls of one kind took and answered.
#[derive(Clone, Copy)]
struct Told {
    calls: u32,
    nanos: u128,
    /// The sum of the answers.
    sum: usize,
}

impl Told {
    fn since(rt: &impl Runtime, start: Instant, calls: u32, sum: usize) -> io::Result<Told> {
        let nanos = start.elapsed(rt)?.as_nanos();
        Ok(Told { calls, nanos, sum })
    }
}

/// The numbers of the places that are found.
fn times_find(rt: &impl Runtime, made: &Numbered, nodes: u32) -> io::Result<Told> {
    let mut sum = 0_usize;
    let start = Instant::now(rt)?;
    for n in 0..CALLS {
        if let Some(at) = made.tree.find(nth_place(nth_number(n, nodes))) {
            sum = sum.wrapping_add(number_of(made.tree.node(at).place));
        }
    }
    Told::since(rt, start, CALLS, sum)
}

/// How many nodes the runs have.
fn times_run_of(rt: &impl Runtime, made: &Numbered) -> io::Result<Told> {
    let mut sum = 0_usize;
    let start = Instant::now(rt)?;
    for n in 0..CALLS {
        let run = made.tree.run_of(made.position(n));
        sum = sum.wrapping_add(run.end.saturating_sub(run.start));
    }
    Told::since(rt, start, CALLS, sum)
}

/// The numbers of the origins' places.
fn times_place_of_origin(rt: &impl Runtime, made: &Numbered) -> io::Result<Told> {
    let mut sum = 0_usize;
    let start = Instant::now(rt)?;
    for n in 0..CALLS {
        if let Some(place) = made.tree.place_of_origin(made.position(n)) {
            sum = sum.wrapping_add(number_of(place));
        }
    }
    Told::since(rt, start, CALLS, sum)
}

/// The same, where the position of the origin is asked for, and then the node there.
fn times_origin_of(rt: &impl Runtime, made: &Numbered) -> io::Result<Told> {
    let mut sum = 0_usize;
    let start = Instant::now(rt)?;
    for n in 0..CALLS {
        if let Some(origin) = made.tree.origin_of(made.position(n)) {
            sum = sum.wrapping_add(number_of(made.tree.node(origin).place));
        }
    }
    Told::since(rt, start, CALLS, sum)
}

/// How many of the pairs are a node and an origin of it.
fn times_is_origin(rt: &impl Runtime, made: &Numbered) -> io::Result<Told> {
    let mut sum = 0_usize;
    let start = Instant::now(rt)?;
    for n in 0..CALLS {
        let (a, b) = (made.position(n), made.position(n.wrapping_mul(31)));
        sum = sum.wrapping_add(usize::from(made.tree.is_origin(a, b)));
    }
    Told::since(rt, start, CALLS, sum)
}

/// How many runs there are.
fn times_outer_runs(
    rt: &impl Runtime,
    alloc: Global,
    made: &Numbered,
    named: &[Place],
) -> Result<Told, Fail> {
    let mut sum = 0_usize;
    let start = Instant::now(rt)?;
    for _ in 0..PASSES {
        sum = sum.wrapping_add(made.tree.outer_runs(alloc, named)?.len());
    }
    Ok(Told::since(rt, start, PASSES, sum)?)
}

/// Cuts the same runs out again and again, and puts them back; how many nodes that were.
fn passes(alloc: Global, tree: &mut Tree, runs: &[Range<usize>]) -> Result<usize, NoMemory>
    requires rising { AreRising 0 runs.now (length tree.old.links) }
    requires runs { All (IsRun tree.old.links) runs.now }
    ensures { OnOk result (tree.new.links ≡ tree.old.links) }
{
    let mut sum = 0_usize;
    for _ in 0..PASSES {
        sum = sum.wrapping_add(put_back(alloc, tree, runs, MOST)?);
    }
    Ok(sum)
}

/// How many nodes are cut out and put back.
fn times_cut_and_splice(
    rt: &impl Runtime,
    alloc: Global,
    tree: &mut Tree,
    named: &[Place],
) -> Result<Told, Fail>
    ensures { OnOk result (tree.new.links ≡ tree.old.links) }
{
    let runs = tree.outer_runs(alloc, named)?;
    let start = Instant::now(rt)?;
    let sum = passes(alloc, tree, &runs)?;
    Ok(Told::since(rt, start, PASSES, sum)?)
}

/// How many nodes get another place.
fn times_rename(rt: &(impl Runtime + Abort), made: &mut Numbered, nodes: u32) -> io::Result<Told> {
    let mut sum = 0_usize;
    let start = Instant::now(rt)?;
    for n in 0..CALLS {
        if let Some(at) = made.tree.find(nth_place(nth_number(n, nodes))) {
            made.rename(rt, at);
            sum = sum.wrapping_add(1);
        }
    }
    Told::since(rt, start, CALLS, sum)
}

/// How many nodes come, each below one of the places from this one on.
fn times_insert_below(
    rt: &(impl Runtime + Abort),
    made: &mut Numbered,
    first: u32,
) -> Result<Told, Fail> {
    let mut sum = 0_usize;
    let start = Instant::now(rt)?;
    for n in 0..CALLS {
        let grown = made.grow_below(rt, nth_place(first.wrapping_add(n)))?;
        sum = sum.wrapping_add(usize::from(grown));
    }
    Ok(Told::since(rt, start, CALLS, sum)?)
}

/// How many nodes are cut out and put back, of each of the places from this one on.
fn times_cut_and_splice_one(
    rt: &impl Runtime,
    alloc: Global,
    tree: &mut Tree,
    first: u32,
) -> Result<Told, Fail> {
    let mut sum = 0_usize;
    let start = Instant::now(rt)?;
    for n in 0..CALLS {
        let named = [nth_place(first.wrapping_add(n))];
        sum = sum.wrapping_add(put_back_at(alloc, tree, &named, MOST)?);
    }
    Ok(Told::since(rt, start, CALLS, sum)?)
}

/// How many nodes are cut out, of each of the places from this one on.
fn times_cut_one(
    rt: &impl Runtime,
    alloc: Global,
    tree: &mut Tree,
    first: u32,
) -> Result<Told, Fail> {
    let mut sum = 0_usize;
    let start = Instant::now(rt)?;
    for n in 0..CALLS {
        let named = [nth_place(first.wrapping_add(n))];
        sum = sum.wrapping_add(nodes_in(&cut_at(alloc, tree, &named, MOST)?));
    }
    Ok(Told::since(rt, start, CALLS, sum)?)
}

/// A sum of places and origins that depends on their order.
fn sum_of_links(links: &[(Place, Option<Place>)]) -> usize {
    let mut sum = 0_usize;
    for (place, origin) in links {
        sum = sum.wrapping_mul(31).wrapping_add(number_of(*place));
        if let Some(origin) = origin {
            sum = sum.wrapping_mul(31).wrapping_add(number_of(*origin));
        }
    }
    sum
}

/// Such a sum of all places.
fn times_links(rt: &impl Runtime, alloc: Global, tree: &Tree) -> Result<Told, Fail> {
    let start = Instant::now(rt)?;
    let sum = sum_of_links(&tree.links(alloc)?);
    Ok(Told::since(rt, start, 1, sum)?)
}

/// Asks what changes no tree.
fn asks(
    rt: &impl Runtime,
    alloc: Global,
    made: &Numbered,
    nodes: u32,
    named: &[Place],
) -> Result<[Told; 6], Fail> {
    Ok([
        times_find(rt, made, nodes)?,
        times_run_of(rt, made)?,
        times_place_of_origin(rt, made)?,
        times_origin_of(rt, made)?,
        times_is_origin(rt, made)?,
        times_outer_runs(rt, alloc, made, named)?,
    ])
}

/// Gives nodes other places, and puts new ones below them; the number of the first new place too.
fn changes(
    rt: &(impl Runtime + Abort),
    made: &mut Numbered,
    nodes: u32,
) -> Result<([Told; 2], u32), Fail> {
    let first = made.next;
    let renamed = times_rename(rt, made, nodes)?;
    let next = made.next;
    let inserted = times_insert_below(rt, made, first)?;
    Ok(([renamed, inserted], next))
}

/// Cuts out single nodes, and lists all places.
fn cuts(rt: &impl Runtime, alloc: Global, tree: &mut Tree, first: u32) -> Result<[Told; 3], Fail> {
    Ok([
        times_cut_and_splice_one(rt, alloc, tree, first)?,
        times_cut_one(rt, alloc, tree, first)?,
        times_links(rt, alloc, tree)?,
    ])
}

/// A tree of this form, and what making it took and answered.
fn times_make(
    rt: &(impl Runtime + Abort),
    alloc: Global,
    form: Form,
    nodes: u32,
) -> Result<(Numbered, Told), Fail> {
    let start = Instant::now(rt)?;
    let made = large_tree(rt, alloc, form, nodes)?;
    let told = Told::since(rt, start, nodes, made.tree.run_of(0).end)?;
    Ok((made, told))
}

/// Makes each call on a tree of this form: what each of `MADE` took and answered.
fn works(
    rt: &(impl Runtime + Abort),
    alloc: Global,
    form: Form,
    nodes: u32,
) -> Result<[Told; 13], Fail> {
    let (mut made, make) = times_make(rt, alloc, form, nodes)?;
    let named = every_tenth(alloc, nodes)?;
    let [
        find,
        run_of,
        place_of_origin,
        origin_of,
        is_origin,
        outer_runs,
    ] = asks(rt, alloc, &made, nodes, &named)?;
    let cut = times_cut_and_splice(rt, alloc, &mut made.tree, &named)?;
    let ([rename, insert], first) = changes(rt, &mut made, nodes)?;
    let Numbered { mut tree, .. } = made;
    let [cut_and_splice_one, cut_one, links] = cuts(rt, alloc, &mut tree, first)?;
    Ok([
        make,
        find,
        run_of,
        place_of_origin,
        origin_of,
        is_origin,
        outer_runs,
        cut,
        rename,
        insert,
        cut_and_splice_one,
        cut_one,
        links,
    ])
}

/// Makes each call on a tree of this form, and writes what it took and answered.
fn tells_of(
    rt: &(impl Runtime + Abort),
    alloc: Global,
    form: Form,
    nodes: u32,
) -> Result<(), Fail> {
    let all = works(rt, alloc, form, nodes)?;
    for (call, told) in MADE.into_iter().zip(all) {
        println!(rt; "{call} {} {} {}", told.calls, told.nanos, told.sum)?;
    }
    Ok(())
}

/// Makes each call on trees of every form, and writes what it took and answered.
fn tells(rt: &(impl Runtime + Abort), alloc: Global, nodes: u32) -> Result<(), Fail> {
    for form in [Form::Chain, Form::Fan, Form::Random] {
        println!(rt; "{} {nodes}", form.name())?;
        tells_of(rt, alloc, form, nodes)?;
    }
    Ok(())
}

/// The sum of the answers of the nth of `MADE`.
fn sum_of(rt: &impl Abort, told: &[Told], n: usize) -> usize {
    match told.get(n) {
        Some(told) => told.sum,
        None => panic!(rt; "there are {} calls", told.len()),
    }
}

/// Sums on a tree of a thousand nodes: those of `run_of`, `origin_of`, `outer_runs` and `cut+splice`, as they are given, and
/// those of the calls that are about each node or place once.
fn has_sums(
    rt: &(impl Runtime + Abort),
    alloc: Global,
    form: Form,
    [run_of, origin_of, outer_runs, cut]: [usize; 4],
) -> Result<(), Fail> {
    let told = works(rt, alloc, form, 1_000)?;
    for (n, sum) in [
        (0, 1_000),
        // 0 + 1 + .. + 999
        (1, 499_500),
        (2, run_of),
        (3, origin_of),
        (4, origin_of),
        (6, outer_runs),
        (7, cut),
        (8, 1_000),
        (9, 1_000),
        (10, 1_000),
        (11, 1_000),
    ] {
        assert_equal(rt, (n, sum_of(rt, &told, n)), (n, sum), form.name());
    }
    assert_equal(rt, told.len(), MADE.len(), form.name());
    Ok(())
}

/// The sums on a chain and on a fan: 1,000 calls are about each position or place once, and those on runs 20 times about the
/// same 99 places.
fn have_sums(rt: &(impl Runtime + Abort), alloc: Global) -> Result<(), Fail> {
    // Each run ends behind the last node, and the 99 places have one outermost run, of 990 nodes.
    has_sums(rt, alloc, Form::Chain, [500_500, 498_501, 20, 19_800])?;
    // Each run but the root's is one node, and each of the 99 places has a run of its own.
    has_sums(rt, alloc, Form::Fan, [1_999, 0, 1_980, 1_980])?;
    Ok(())
}

#[test]
fn makes_each_call_on_a_thousand_nodes_or_as_many_as_are_asked_for(
    rt: HostRuntime,
) -> Result<(), Fail> {
    match env::args(&rt)?.nth(2) {
        Some(nodes) => tells(&rt, rt.alloc(), nodes.parse()?),
        None => have_sums(&rt, rt.alloc()),
    }
}
