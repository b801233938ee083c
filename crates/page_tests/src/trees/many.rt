//! Thousands of calls on one tree, drawn by a fixed rule, each beside the same on a plain list of its nodes; and a
//! hundred thousand in each of five orders.

ghost use Rattle.std.specs.Prelude.{◌≡◌, ◌<◌, ◌≤◌, IfOk, IfSome, length};
ghost use Rattle.std.specs.List.{All};
ghost use Rattle.maptree.specs.Origins.{AreRising, IsRun};

use super::cuts::{are_absent, are_closed, nodes_in, parts_without};
use super::large::nth_place;
use super::{position, put_below, rename};
use crate::assertions::{assert_equal, assert_holds};
use maptree::Tree;
use space::{Node, Place, Slice};
use std::alloc::Global;
use std::ops::Range;
use std::process::Abort;
use std::test::Fail;

/// How many calls change the tree.
const CHANGES: u32 = 6_000;

/// How many of each of several orders.
const FEWER: u32 = 2_000;

/// How many of each order in a long run.
const MANY: u32 = 100_000;

/// A place that never comes has this number.
const NEVER: u32 = 200_000;

/// After how many of a few calls all nodes are compared.
const BETWEEN: u32 = 100;

/// Only a tree of so many nodes or more has nodes cut out.
const LARGE: usize = 1_500;

/// Only nodes with so few below them, themselves counted too, are taken out for good.
const FEW: usize = 64;

/// How many nodes a block has at least on the whole, also where nodes have gone.
const LEAST: usize = 43;

/// Numbers that look random, the same ones each time.
#[derive(Clone, Copy)]
struct Chance {
    state: u64,
}

impl Chance {
    /// A number below this one; 0 below 0.
    fn below(&mut self, n: usize) -> usize
        ensures { 0 < n → result < n }
    {
        self.state = self
            .state
            .wrapping_mul(6_364_136_223_846_793_005)
            .wrapping_add(1_442_695_040_888_963_407);
        (self.state / 8_589_934_592) as usize % n.max(1)
    }
}

/// Where the run of a node ends.
fn end_of(list: &[Node], i: usize) -> usize
    requires { i < length list.now }
{
    for j in i + 1..list.len() {
        if list[j].depth <= list[i].depth {
            return j;
        }
    }
    list.len()
}

/// Where the origin of a node stands.
fn origin_of(list: &[Node], i: usize) -> Option<usize>
    requires { i < length list.now }
    ensures { IfSome result (λ r. r < i) }
{
    for j in (0..i).rev() {
        if list[j].depth < list[i].depth {
            return Some(j);
        }
    }
    None
}

/// The outermost runs of some places.
fn outer_runs(alloc: Global, list: &[Node], places: &[Place]) -> Result<Vec<Range<usize>>, Fail> {
    let mut runs = Vec::new(alloc);
    let mut until = 0;
    for i in 0..list.len() {
        if until <= i && places.contains(&list[i].place) {
            until = end_of(list, i);
            runs.push(i..until)?;
        }
    }
    Ok(runs)
}

/// For each of so many positions whether it lies in one of some ranges, which rise.
fn are_within(alloc: Global, len: usize, ranges: &[Range<usize>]) -> Result<Vec<bool>, Fail>
    ensures { IfOk result (λ within. length within.items ≡ len) }
{
    let mut within = vec![in alloc; false; len]?;
    for range in ranges {
        for i in range.start..range.end.min(len) {
            within[i] = true;
        }
    }
    Ok(within)
}

/// The nodes that stand outside of some ranges.
fn outside(alloc: Global, list: &[Node], ranges: &[Range<usize>]) -> Result<Vec<Node>, Fail> {
    let within = are_within(alloc, list.len(), ranges)?;
    let mut left = Vec::new(alloc);
    for i in 0..list.len() {
        if !within[i] {
            left.push(list[i])?;
        }
    }
    Ok(left)
}

/// What the tree answers of two nodes is what the list says.
fn asks(rt: &impl Abort, tree: &Tree, list: &[Node], i: usize, j: usize)
    requires i { i < length list.now }
    requires j { j < length list.now }
{
    let a = position(rt, tree, list[i].place);
    let b = position(rt, tree, list[j].place);
    let end = end_of(list, i);
    assert_equal(rt, (a, b), (i, j), i);
    assert_equal(rt, tree.node(a), list[i], i);
    assert_equal(rt, tree.run_of(a), i..end, i);
    assert_equal(rt, tree.origin_of(a), origin_of(list, i), i);
    assert_equal(rt, tree.is_origin(a, b), i < j && j < end, i);
}

/// For each node the place of its origin.
fn origins_of(alloc: Global, list: &[Node]) -> Result<Vec<Option<Place>>, Fail>
    ensures { IfOk result (λ origins. length origins.items ≡ length list.now) }
{
    let mut origins = vec![in alloc; None; list.len()]?;
    let mut path: Vec<Place> = Vec::new(alloc);
    for i in 0..list.len() {
        path.truncate(list[i].depth);
        origins[i] = path.last().copied();
        path.push(list[i].place)?;
    }
    Ok(origins)
}

/// For each node where its run ends.
fn ends_of(alloc: Global, list: &[Node]) -> Result<Vec<usize>, Fail> {
    let mut ends = vec![in alloc; list.len(); list.len()]?;
    let mut path: Vec<usize> = Vec::new(alloc);
    for i in 0..list.len() {
        for k in list[i].depth..path.len() {
            if path[k] < ends.len() {
                ends[path[k]] = i;
            }
        }
        path.truncate(list[i].depth);
        path.push(i)?;
    }
    Ok(ends)
}

/// The tree has the nodes of the list, with their origins and the ends of their runs, and no others.
fn assert_all(rt: &impl Abort, alloc: Global, tree: &Tree, list: &[Node]) -> Result<(), Fail> {
    let links = tree.links(alloc)?;
    assert_eq!(rt; links.len(), list.len());
    let (origins, ends) = (origins_of(alloc, list)?, ends_of(alloc, list)?);
    for i in 0..list.len() {
        assert_equal(rt, links[i], (list[i].place, origins[i]), i);
        assert_equal(rt, tree.node(i), list[i], i);
        let end = ends.get(i).copied().unwrap_or(0);
        assert_equal(rt, tree.run_of(i), i..end, i);
    }
    Ok(())
}

/// Puts a new place below a node.
fn inserts(
    rt: &impl Abort,
    tree: &mut Tree,
    list: &mut Vec<Node>,
    i: usize,
    place: Place,
) -> Result<(), Fail>
    requires { i < length list.old.items }
{
    let origin = list[i];
    tree.reserve(1)?;
    put_below(rt, tree, origin.place, place);
    let depth = origin.depth.saturating_add(1);
    list.insert(i + 1, Node { place, depth })?;
    Ok(())
}

/// Gives a node a new place.
fn renames(rt: &impl Abort, tree: &mut Tree, list: &mut [Node], i: usize, place: Place)
    requires { i < length list.old }
{
    rename(rt, tree, list[i].place, place);
    list[i].place = place;
}

/// A node of a part, by their numbers.
fn nth_node(parts: &[Slice], part: usize, at: usize) -> Option<Node> {
    match parts.get(part) {
        Some(part) => part.nodes.get(at).copied(),
        None => None,
    }
}

/// A node of a part, by their numbers, is this one.
fn has_node(rt: &impl Abort, parts: &[Slice], part: usize, at: usize, node: Node) {
    assert_equal(
        rt,
        (part, at, nth_node(parts, part, at)),
        (part, at, Some(node)),
        "a node of a part",
    );
}

/// The parts have the nodes of these runs of the list, each at most so many, and no others.
fn assert_parts(
    rt: &impl Abort,
    parts: &[Slice],
    list: &[Node],
    runs: &[Range<usize>],
    most: usize,
) {
    let (mut begun, mut count) = (0_usize, 0_usize);
    for run in runs {
        for i in run.start..run.end.min(list.len()) {
            let at = i.wrapping_sub(run.start) % most.max(1);
            if at == 0 {
                begun = begun.wrapping_add(1);
            }
            has_node(rt, parts, begun.wrapping_sub(1), at, list[i]);
            count = count.wrapping_add(1);
        }
    }
    assert_equal(
        rt,
        (parts.len(), nodes_in(parts)),
        (begun, count),
        "parts and nodes",
    );
}

/// Cuts runs out of the tree, which has the nodes of a list, and puts back all but the nodes at some places.
fn cuts(
    rt: &impl Abort,
    alloc: Global,
    tree: &mut Tree,
    list: &[Node],
    runs: &[Range<usize>],
    most: usize,
    gone: &[Place],
) -> Result<(), Fail>
    requires rising { AreRising 0 runs.now (length tree.old.links) }
    requires runs { All (IsRun tree.old.links) runs.now }
    requires most { 1 ≤ most }
{
    let len = tree.links(alloc)?.len();
    if !are_closed(tree, len, gone) {
        panic!(rt; "a node would stay without its origin");
    }
    let parts = tree.cut(alloc, runs, most)?;
    assert_parts(rt, &parts, list, runs, most);
    assert_all(rt, alloc, tree, &outside(alloc, list, runs)?)?;
    if !are_absent(tree, gone) {
        panic!(rt; "not all are in parts");
    }
    let kept = parts_without(alloc, &parts, gone)?;
    tree.splice(kept)?;
    Ok(())
}

/// Some runs within these, none with the root: what is left out of the parts.
fn left_out(
    alloc: Global,
    list: &[Node],
    runs: &[Range<usize>],
    chance: &mut Chance,
) -> Result<Vec<Range<usize>>, Fail> {
    let mut out = Vec::new(alloc);
    let mut until = 1;
    for run in runs {
        for i in run.start..run.end.min(list.len()) {
            if until <= i && chance.below(64) == 0 {
                until = end_of(list, i);
                out.push(i..until)?;
            }
        }
    }
    Ok(out)
}

/// The places of a few nodes, or of many.
fn some_places(alloc: Global, list: &[Node], chance: &mut Chance) -> Result<Vec<Place>, Fail> {
    let mut named = Vec::new(alloc);
    let few_or_many = [2, 5, 200][chance.below(3)];
    for _ in 0..1 + chance.below(few_or_many) {
        if let Some(node) = list.get(chance.below(list.len())) {
            named.push(node.place)?;
        }
    }
    Ok(named)
}

/// The places of the nodes within some ranges.
fn places_within(
    alloc: Global,
    list: &[Node],
    ranges: &[Range<usize>],
) -> Result<Vec<Place>, Fail> {
    let within = are_within(alloc, list.len(), ranges)?;
    let mut places = Vec::new(alloc);
    for i in 0..list.len() {
        if within[i] {
            places.push(list[i].place)?;
        }
    }
    Ok(places)
}

/// Cuts the outermost runs of a few places, or of many, out, and puts back what is not left out.
fn thins(
    rt: &impl Abort,
    alloc: Global,
    tree: &mut Tree,
    list: &mut Vec<Node>,
    chance: &mut Chance,
) -> Result<(), Fail> {
    let named = some_places(alloc, list, chance)?;
    let runs = tree.outer_runs(alloc, &named)?;
    let wanted = outer_runs(alloc, list, &named)?;
    assert_equal(rt, runs.as_slice(), wanted.as_slice(), "outermost runs");
    let out = left_out(alloc, list, &runs, chance)?;
    let gone = places_within(alloc, list, &out)?;
    cuts(rt, alloc, tree, list, &runs, 1 + chance.below(300), &gone)?;
    *list = outside(alloc, list, &out)?;
    Ok(())
}

/// Takes a node but the root out for good with what derives from it, where that is not much.
fn removes(
    rt: &impl Abort,
    alloc: Global,
    tree: &mut Tree,
    list: &mut Vec<Node>,
    i: usize,
) -> Result<(), Fail>
    requires { i < length list.old.items }
{
    let run = i..end_of(list, i);
    if i == 0 || FEW < run.len() {
        return Ok(());
    }
    let runs = tree.outer_runs(alloc, &[list[i].place])?;
    assert_equal(rt, runs.as_slice(), [run].as_slice(), "the run of a node");
    tree.remove(&runs);
    *list = outside(alloc, list, &runs)?;
    Ok(())
}

/// Below which node of a list a new one comes.
#[derive(Clone, Copy)]
enum Order {
    Any,
    Front,
    NextToLast,
    /// Each one position behind the one before.
    Walk,
    BothEnds,
}

/// Below which of so many nodes the nth place comes.
fn below_which(order: Order, n: u32, nodes: usize, chance: &mut Chance) -> usize {
    let last = nodes.saturating_sub(1);
    match order {
        Order::Any => [0, last, chance.below(nodes)][chance.below(3)],
        Order::Front => 0,
        Order::NextToLast => last.saturating_sub(1),
        Order::Walk => n as usize % nodes.max(1),
        Order::BothEnds => [last.saturating_sub(1), last.min(1)][n as usize % 2],
    }
}

/// Which calls are made, and how often the answers are compared.
#[derive(Clone, Copy)]
struct Plan {
    order: Order,
    calls: u32,
    /// One of so many calls cuts nodes out.
    cuts: usize,
    /// How many of so many take nodes out for good.
    removals: usize,
    /// After each so many calls two nodes are asked about.
    asks: u32,
    /// After each so many all nodes are compared.
    whole: u32,
}

impl Plan {
    /// A few calls, with all answers after each.
    fn few(order: Order, calls: u32) -> Plan {
        Plan {
            order,
            calls,
            cuts: 50,
            removals: 0,
            asks: 1,
            whole: BETWEEN,
        }
    }

    /// Many calls, with answers now and then.
    fn many(order: Order) -> Plan {
        Plan {
            order,
            calls: MANY,
            cuts: 10_000,
            removals: 100,
            asks: 200,
            whole: u32::MAX,
        }
    }
}

/// A call that changes the tree.
#[derive(Clone, Copy)]
enum Change {
    Cut,
    /// Of the node at a position.
    Rename(usize),
    /// Of the node at a position with what derives from it.
    Remove(usize),
    /// Below that node.
    Insert(usize),
}

/// The nth call of a plan, for a tree of so many nodes. The last tenth of the calls cuts nothing, so that many are left.
fn nth_change(plan: &Plan, n: u32, nodes: usize, chance: &mut Chance) -> Change {
    let at = below_which(plan.order, n, nodes, chance);
    let any = chance.below(nodes);
    let chosen = chance.below(plan.cuts);
    let last = plan.calls.saturating_sub(plan.calls / 10);
    if chosen == 0 && LARGE < nodes && n < last {
        Change::Cut
    } else if chosen <= plan.removals {
        Change::Remove(any)
    } else if chosen < plan.cuts / 5 {
        Change::Rename(any)
    } else {
        Change::Insert(at)
    }
}

/// Makes one call that changes the tree, with this place where it is one of a new node.
fn changes(
    rt: &impl Abort,
    alloc: Global,
    tree: &mut Tree,
    list: &mut Vec<Node>,
    change: Change,
    place: Place,
    chance: &mut Chance,
) -> Result<(), Fail> {
    match change {
        Change::Cut => thins(rt, alloc, tree, list, chance),
        Change::Rename(i) => {
            assert!(rt; i < list.len());
            renames(rt, tree, list, i, place);
            Ok(())
        }
        Change::Remove(i) => {
            assert!(rt; i < list.len());
            removes(rt, alloc, tree, list, i)
        }
        Change::Insert(i) => {
            assert!(rt; i < list.len());
            inserts(rt, tree, list, i, place)
        }
    }
}

/// Makes the nth call that changes the tree, and asks of two nodes where it is time for that.
fn step(
    rt: &impl Abort,
    alloc: Global,
    tree: &mut Tree,
    list: &mut Vec<Node>,
    plan: &Plan,
    n: u32,
    chance: &mut Chance,
) -> Result<(), Fail> {
    let change = nth_change(plan, n, list.len(), chance);
    changes(rt, alloc, tree, list, change, nth_place(n), chance)?;
    if n % plan.asks.max(1) == 0 {
        let (i, j) = (chance.below(list.len()), chance.below(list.len()));
        assert!(rt; i < list.len() && j < list.len());
        asks(rt, tree, list, i, j);
        let never = tree.find(nth_place(NEVER));
        assert_equal(rt, never, None, "a place that never comes");
    }
    if n % plan.whole.max(1) == 0 {
        assert_all(rt, alloc, tree, list)?;
    }
    Ok(())
}

/// Makes the calls of a plan on a tree and on a list.
fn compared(rt: &impl Abort, alloc: Global, plan: &Plan) -> Result<(Tree, Vec<Node>), Fail> {
    let mut chance = Chance { state: 1 };
    let mut tree = Tree::root(alloc, nth_place(0));
    let mut list = Vec::new(alloc);
    list.push(Node {
        place: nth_place(0),
        depth: 0,
    })?;
    for n in 1..plan.calls {
        step(rt, alloc, &mut tree, &mut list, plan, n, &mut chance)?;
    }
    Ok((tree, list))
}

#[test]
fn is_like_a_plain_list_over_thousands_of_calls(rt: HostRuntime) -> Result<(), Fail> {
    let (_, list) = compared(&rt, rt.alloc(), &Plan::few(Order::Any, CHANGES))?;
    assert_holds(&rt, LARGE < list.len(), "too few nodes");
    Ok(())
}

#[test]
fn is_like_a_plain_list_where_nodes_come_at_the_ends(rt: HostRuntime) -> Result<(), Fail> {
    for order in [
        Order::Front,
        Order::NextToLast,
        Order::Walk,
        Order::BothEnds,
    ] {
        compared(&rt, rt.alloc(), &Plan::few(order, FEWER))?;
    }
    Ok(())
}

/// A hundred thousand calls in this order leave the nodes of the list, in few blocks.
fn many_in_order(rt: &impl Abort, alloc: Global, order: Order) -> Result<(), Fail> {
    let (tree, list) = compared(rt, alloc, &Plan::many(order))?;
    assert_all(rt, alloc, &tree, &list)?;
    assert_holds(rt, LARGE < list.len(), "too few nodes");
    let blocks = tree.block_count().unwrap_or(usize::MAX);
    assert_holds(rt, blocks < list.len() / LEAST + 4, "too many blocks");
    Ok(())
}

#[test]
fn is_like_a_plain_list_in_any_order(rt: HostRuntime) -> Result<(), Fail> {
    many_in_order(&rt, rt.alloc(), Order::Any)
}

#[test]
fn is_like_a_plain_list_from_the_front(rt: HostRuntime) -> Result<(), Fail> {
    many_in_order(&rt, rt.alloc(), Order::Front)
}

#[test]
fn is_like_a_plain_list_next_to_the_last(rt: HostRuntime) -> Result<(), Fail> {
    many_in_order(&rt, rt.alloc(), Order::NextToLast)
}

#[test]
fn is_like_a_plain_list_in_a_walk(rt: HostRuntime) -> Result<(), Fail> {
    many_in_order(&rt, rt.alloc(), Order::Walk)
}

#[test]
fn is_like_a_plain_list_at_both_ends(rt: HostRuntime) -> Result<(), Fail> {
    many_in_order(&rt, rt.alloc(), Order::BothEnds)
}
