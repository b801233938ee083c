//! A list of nodes in blocks, so that a change of it touches the blocks that it changes.

ghost use Rattle.std.specs.Prelude.{◌≡◌, ◌≤◌, ◌<◌, ◌+◌, ◌-◌, ◌^◌, ℕ, [], OnOk, get_or, length, map, vec_capacity};
ghost use Rattle.maptree.specs.Blocks.{AreMinDepths, AreStarts, block_size, nodes_in};
ghost use Rattle.maptree.specs.PlaceMaps.{place_for};
ghost use Rattle.maptree.specs.Renamings.{nodes_renamed};

use crate::block::{BLOCK_SIZE, Block, behind_first, least_of, most_of};
use crate::block_starts::Starts;
use crate::hints::{Hint, Hints};
use crate::min_depths::MinDepths;
use crate::place_map::PlaceMap;
use crate::position_cache::PositionCache;
use space::{Node, Place, Slice};
use std::alloc::{AllocError, Global};
use std::marker::Model;
use std::ops::Range;

/// How many nodes a block is given where many are made at once.
const FILLED: usize = 120;

/// How many nodes a block has at most when it was joined from two.
const JOINED: usize = 96;

/// Of so many blocks one may come to have no nodes, or few enough to be joined to one beside it, before such blocks are
/// joined.
const THIN: usize = 64;

/// How many blocks are held ready at most that are not promised, where many were.
const SPARES: usize = 512;

/// How many nodes either part of a split has at least: a third of a block.
const THIRD: usize = 43;

/// How many of the first nodes of a list may come to have a block to themselves.
const FRONT: usize = 8;

/// How many blocks may be split at most before the hints are told where all stand. A search passes over as many.
const SPLITS: usize = 16;

/// For how many blocks one more may be split until then.
const GROUPED: usize = 512;

/// A seat in a list of blocks: a block, and how many of its nodes stand before the seat.
#[derive(Clone, Copy)]
pub struct Seat {
    pub block: usize,
    pub offset: usize,
}

/// A list of nodes in blocks.
#[derive(Drop)]
pub struct Blocks {
    blocks: Vec<Block>,
    /// For each block, how many nodes stand before it.
    starts: Starts,
    /// For each block, a depth that none of its nodes goes below.
    min_depths: MinDepths,
    /// Blocks for nodes to come: at least as many as insertions were promised, each of which may split a block.
    spare: Vec<Block>,
    /// How many insertions will take no memory.
    room: usize,
    /// How many nodes there are.
    len: usize,
    /// None of the nodes but the first is less deep than this.
    behind: usize,
    /// None of the nodes is deeper than this.
    deepest: usize,
    /// How often a block came to have no nodes, or few enough to be joined, since such blocks were joined. No clause
    /// rests on it.
    thinned: usize,
    /// How often a block was split since the hints were told where all stand: as many blocks further back one may stand
    /// now. No clause rests on it.
    splits: usize,
    hints: Hints,
    position_cache: PositionCache,
}

impl Model for Blocks {
    ghost use Rattle.std.specs.Prelude.{◌≡◌, ◌<◌, ◌≤◌, ◌+◌, ◌^◌, true, length, drop, vec_capacity, vec_len};
    ghost use Rattle.maptree.specs.Blocks.{AreMinDepths, AreStarts, Blocked, is_least, is_most, nodes_in};

    ghost Value = { Blocked };

    ghost view = { λ b. record { blocks = b.blocks.items; room = b.room } };

    ghost invariant = { λ b. (b.len ≡ length (nodes_in b.blocks.items)) × (0 < length b.blocks.items) × (b.room ≤ length b.spare.items) × (length b.blocks.items + b.room ≤ vec_capacity b.blocks) × (b.len + b.room < 2 ^ 64) × AreStarts b.blocks.items b.starts × (length b.blocks.items + b.room ≤ b.starts.capacity) × AreMinDepths b.blocks.items b.min_depths.min_depths × (length b.blocks.items + b.room ≤ b.min_depths.capacity) × (is_least b.behind (drop 1 (nodes_in b.blocks.items)) ≡ true) × (is_most b.deepest (nodes_in b.blocks.items) ≡ true) };
}

impl Blocks {
    ghost use Rattle.std.specs.Prelude.{◌≡◌, ◌+◌, ◌<◌, ◌≤◌, ◌^◌, true, [], ◌++◌, length, take, drop, get_or, set, insert, position, Some, IfOk, OnOk, OnErr, vec_capacity};
    ghost use Rattle.std.specs.List.{slice_range};
    ghost use Rattle.space.specs.Place.{same_place};
    ghost use Rattle.space.specs.declared.node.Node.{Node};
    ghost use Rattle.std.specs.Prelude.{option_map, IfSome};
    ghost use Rattle.space.specs.declared.place.Place.{Place};
    ghost use Rattle.maptree.specs.Blocks.{block_size, nodes_in, HasNode, IsFan, IsSeat, nodes_before, split_block};
    ghost use Rattle.maptree.specs.Nodes.{are_distinct, is_forest, origin_at, run_len, last_less};
    ghost use Rattle.maptree.specs.Origins.{AreRising};
    ghost use Rattle.space.specs.Slices.{nodes_of};
    ghost use Rattle.maptree.specs.Cuts.{AreGaps, count_of, joined, outside};
    ghost use Rattle.maptree.specs.PlaceMaps.{place_for};
    ghost use Rattle.maptree.specs.Renamings.{nodes_renamed};

    /// How many nodes there are.
    pub fn len(&self) -> usize
        ensures { result ≡ length (nodes_in self.now.blocks) }
    {
        self.len
    }

    /// How many blocks there are.
    pub fn block_count(&self) -> usize
        ensures { result ≡ length self.now.blocks }
    {
        self.blocks.len()
    }

    /// How many insertions will take no memory.
    pub fn room(&self) -> usize
        ensures room { result ≡ self.now.room }
        ensures fits { result < 2 ^ 63 }
    {
        self.room
    }

    /// The seat behind so many nodes. It stands behind a node of its block, if there is any before it.
    pub fn seat(&self, i: usize) -> Seat
        requires { i ≤ length (nodes_in self.now.blocks) }
        ensures seat { IsSeat self.now.blocks i result }
        ensures behind { 0 < i → 0 < result.offset }
    {
        let (block, before) = self.starts.last_below(i, self.position_cache.block_at(i));
        Seat {
            block,
            offset: i - before,
        }
    }

    /// The seat of the node at a position.
    fn seat_of(&self, i: usize) -> Seat
        requires { i < length (nodes_in self.now.blocks) }
        ensures seat { IsSeat self.now.blocks i result }
        ensures inside { result.offset < length (get_or self.now.blocks result.block []) }
    {
        let within = i < self.len;
        prove!(within);
        let Seat { block, offset } = self.seat(i + 1);
        Seat {
            block,
            offset: offset - 1,
        }
    }

    /// The node at a position.
    pub fn get(&self, i: usize) -> Node
        requires { i < length (nodes_in self.now.blocks) }
        ensures node { result ≡ get_or (nodes_in self.now.blocks) i result }
        ensures fits { length (nodes_in self.now.blocks) < 2 ^ 64 }
    {
        let seat = self.seat_of(i);
        self.blocks[seat.block].get(seat.offset)
    }

    /// The nodes of the block that has a position, and the position of the first of them.
    pub fn near(&self, i: usize) -> (usize, &[Node])
        requires { i < length (nodes_in self.now.blocks) }
        ensures before { result.0 ≤ i }
        ensures behind { i < result.0 + length result.1.now }
        ensures nodes { result.1.now ≡ take (length result.1.now) (drop result.0 (nodes_in self.now.blocks)) }
    {
        let seat = self.seat_of(i);
        (i - seat.offset, self.blocks[seat.block].nodes())
    }

    /// The position of a place.
    pub fn find(&self, place: Place) -> Option<usize>
        requires { are_distinct (nodes_in self.now.blocks) ≡ true }
        ensures { result ≡ position (λ n. same_place place n.place) (nodes_in self.now.blocks) }
    {
        if let Some(hint) = self.hints.first(place) {
            if self.is_up_to_date(hint) {
                if let Some(i) = self.find_in(hint.block, place, hint) {
                    return Some(i);
                }
            }
        }
        self.find_elsewhere(place)
    }

    /// Whether the block of a hint stands where that was last told.
    fn is_up_to_date(&self, hint: Hint) -> bool {
        match self.blocks.get(hint.block) {
            Some(block) => block.number() == hint.number,
            None => false,
        }
    }

    /// The position of a place, if it stands in this block, which need not be there.
    #[inline(always)]
    fn find_in(&self, block: usize, place: Place, hint: Hint) -> Option<usize>
        requires { are_distinct (nodes_in self.now.blocks) ≡ true }
        ensures { IfSome result (λ i. position (λ n. same_place place n.place) (nodes_in self.now.blocks) ≡ Some i) }
    {
        if block >= self.blocks.len() {
            return None;
        }
        let offset = self.blocks[block].find_from(place, hint.before, hint.from)?;
        Some(self.starts.get(block) + offset)
    }

    /// The position of a place, by all that hints tell of it, or in a pass.
    #[inline(never)]
    fn find_elsewhere(&self, place: Place) -> Option<usize>
        requires { are_distinct (nodes_in self.now.blocks) ≡ true }
        ensures { result ≡ position (λ n. same_place place n.place) (nodes_in self.now.blocks) }
    {
        for turn in 0..self.hints.turns() {
            if let Some(hint) = self.hints.get(place, turn) {
                if let Some(i) = self.find_in(self.block_of(hint), place, hint) {
                    return Some(i);
                }
            }
        }
        self.search(place)
    }

    /// Where the block of a hint stands: there, or further back by no more blocks than were split since.
    fn block_of(&self, hint: Hint) -> usize {
        let most = self.splits.saturating_add(1);
        let end = hint.block.saturating_add(most).min(self.blocks.len());
        for k in hint.block..end {
            if self.blocks[k].number() == hint.number {
                return k;
            }
        }
        hint.block
    }

    /// The same of a place, in a pass over the blocks.
    fn search(&self, place: Place) -> Option<usize>
        ensures { result ≡ position (λ n. same_place place n.place) (nodes_in self.now.blocks) }
    {
        for k in 0..self.blocks.len() {
            if let Some(offset) = self.blocks[k].find(place) {
                return Some(self.starts.get(k) + offset);
            }
        }
        None
    }

    /// The node at a position, and how many nodes behind it are deeper than it is, one after another.
    pub fn run_of(&self, i: usize) -> (Node, usize)
        requires { i < length (nodes_in self.now.blocks) }
        ensures node { result.0 ≡ get_or (nodes_in self.now.blocks) i result.0 }
        ensures run { result.1 ≡ run_len result.0.depth (drop (i + 1) (nodes_in self.now.blocks)) }
        ensures fits { length (nodes_in self.now.blocks) < 2 ^ 64 }
    {
        let seat = self.seat_of(i);
        let first = &self.blocks[seat.block];
        let len = first.len();
        let node = first.get(seat.offset);
        let deeper = first.deeper(seat.offset + 1, node.depth);
        if seat.offset + 1 + deeper < len {
            return (node, deeper);
        }
        let end = self.end_from(seat.block + 1, node.depth);
        (node, end - (i + 1))
    }

    /// The position of the first node from a block on that is not deeper than this; behind the last, where all are.
    fn end_from(&self, block: usize, depth: usize) -> usize
        requires { block ≤ length self.now.blocks }
        ensures { result ≡ length (nodes_in (take block self.now.blocks)) + run_len depth (nodes_in (drop block self.now.blocks)) }
    {
        let first = self.min_depths.pass_above(block, depth);
        for k in first..self.blocks.len() {
            if self.min_depths.get(k) as usize <= depth {
                let block = &self.blocks[k];
                let deeper = block.deeper(0, depth);
                if deeper < block.len() {
                    return self.starts.get(k) + deeper;
                }
            }
        }
        self.len
    }

    /// Whether each node but the first has that as its origin, as far as the bounds of depths tell.
    fn is_fan(&self) -> bool
        ensures { result ≡ true → IsFan (nodes_in self.now.blocks) }
    {
        0 < self.behind && self.deepest <= self.behind
    }

    /// The position of the last node before a position that is less deep than the one there.
    pub fn origin_of(&self, i: usize) -> Option<usize>
        requires within { i < length (nodes_in self.now.blocks) }
        requires forest { is_forest (nodes_in self.now.blocks) ≡ true }
        ensures { (d : Node) → result ≡ origin_at (nodes_in self.now.blocks) i d }
    {
        if i > 0 && self.is_fan() {
            return Some(0);
        }
        let seat = self.origin_seat(i)?;
        Some(self.starts.get(seat.block) + seat.offset)
    }

    /// The place of that node.
    pub fn place_of_origin(&self, i: usize) -> Option<Place>
        requires within { i < length (nodes_in self.now.blocks) }
        requires forest { is_forest (nodes_in self.now.blocks) ≡ true }
        ensures { (d : Node) → result ≡ option_map (λ r. (get_or (nodes_in self.now.blocks) r d).place) (origin_at (nodes_in self.now.blocks) i d) }
    {
        if i > 0 && self.is_fan() {
            return Some(self.get(0).place);
        }
        let seat = self.origin_seat(i)?;
        Some(self.blocks[seat.block].get(seat.offset).place)
    }

    /// The seat of that node.
    fn origin_seat(&self, i: usize) -> Option<Seat>
        requires within { i < length (nodes_in self.now.blocks) }
        requires forest { is_forest (nodes_in self.now.blocks) ≡ true }
        ensures origin { (d : Node) → option_map (nodes_before self.now.blocks) result ≡ origin_at (nodes_in self.now.blocks) i d }
        ensures inside { IfSome result (HasNode self.now.blocks) }
    {
        let seat = self.seat_of(i);
        let block = &self.blocks[seat.block];
        let node = block.get(seat.offset);
        // As in a fan: only the first of all nodes, a root, can be less deep.
        if node.depth <= self.behind {
            return if node.depth == 0 {
                None
            } else {
                Some(self.seat_of(0))
            };
        }
        if let Some(offset) = block.last_above_here(seat.offset, node.depth) {
            return Some(Seat {
                block: seat.block,
                offset,
            });
        }
        self.last_before(seat.block, node.depth)
    }

    /// The seat of the last of the nodes before a block that is less deep than this.
    fn last_before(&self, block: usize, depth: usize) -> Option<Seat>
        requires { block ≤ length self.now.blocks }
        ensures last { option_map (nodes_before self.now.blocks) result ≡ last_less depth (nodes_in (take block self.now.blocks)) }
        ensures inside { IfSome result (HasNode self.now.blocks) }
    {
        let end = self.min_depths.pass_back(block, depth);
        for k in (0..end).rev() {
            if (self.min_depths.get(k) as usize) < depth {
                let block = &self.blocks[k];
                if let Some(offset) = block.last_above(block.len(), depth) {
                    return Some(Seat { block: k, offset });
                }
            }
        }
        None
    }

    /// Another place for the node at a position.
    pub fn set_place(&mut self, i: usize, place: Place)
        requires { i < length (nodes_in self.old.blocks) }
        ensures nodes { (d : Node) → nodes_in self.new.blocks ≡ set (nodes_in self.old.blocks) i (record { place = place; depth = (get_or (nodes_in self.old.blocks) i d).depth }) }
        ensures room { self.new.room ≡ self.old.room }
    {
        let seat = self.seat_of(i);
        let block = &mut self.blocks[seat.block];
        let old = block.get(seat.offset).place;
        block.set_place(seat.offset, place);
        let (number, len) = (block.number(), block.len());
        self.hints.remove(old);
        self.hints.put(place, number, seat.offset, len);
    }

    /// Puts a node at a position. This takes no memory.
    pub fn insert(&mut self, i: usize, node: Node)
        requires within { i ≤ length (nodes_in self.old.blocks) }
        requires room { 0 < self.old.room }
        ensures nodes { nodes_in self.new.blocks ≡ insert (nodes_in self.old.blocks) i node }
        ensures room { self.new.room + 1 ≡ self.old.room }
    {
        let seat = self.seat_with_room(i);
        let block = &mut self.blocks[seat.block];
        block.insert(seat.offset, node);
        let (number, len) = (block.number(), block.len());
        self.min_depths.set(seat.block, block.least());
        self.behind = if i == 0 {
            0
        } else {
            self.behind.min(node.depth)
        };
        self.deepest = self.deepest.max(node.depth);
        self.len += 1;
        self.starts.add(seat.block, 1);
        self.hints.put(node.place, number, seat.offset, len);
        self.renew_cache(1);
    }

    /// A seat behind so many nodes for one more. Behind all nodes of a full block that is the one before the nodes of
    /// the next block, if there is one: nodes that come and go there do not split the full block each time.
    fn seat_for_one(&self, i: usize) -> Seat
        requires { i ≤ length (nodes_in self.now.blocks) }
        ensures { IsSeat self.now.blocks i result }
    {
        let seat = self.seat(i);
        let len = self.blocks[seat.block].len();
        if len < BLOCK_SIZE || seat.offset < len {
            return seat;
        }
        if self.blocks.len() - seat.block == 1 {
            return seat;
        }
        Seat {
            block: seat.block + 1,
            offset: 0,
        }
    }

    /// A seat behind so many nodes in a block that has room for one more; a full block is split. One insertion less is
    /// promised.
    fn seat_with_room(&mut self, i: usize) -> Seat
        requires within { i ≤ length (nodes_in self.old.blocks) }
        requires room { 0 < self.old.room }
        ensures nodes { nodes_in self.new.blocks ≡ nodes_in self.old.blocks }
        ensures seat { IsSeat self.new.blocks i result }
        ensures few { length (get_or self.new.blocks result.block []) < block_size }
        ensures room { self.new.room + 1 ≡ self.old.room }
        ensures fits { length (nodes_in self.new.blocks) + self.old.room < 2 ^ 64 }
    {
        let seat = self.seat_for_one(i);
        if self.blocks[seat.block].len() < BLOCK_SIZE {
            self.room -= 1;
            return seat;
        }
        let front = front_of_split(seat, self.blocks.len());
        self.split(seat.block, front);
        if seat.offset <= front {
            return seat;
        }
        Seat {
            block: seat.block + 1,
            offset: seat.offset - front,
        }
    }

    /// Moves the nodes of a block from a position on to a spare one behind it. One insertion less is promised.
    fn split(&mut self, block: usize, at: usize)
        requires within { block < length self.old.blocks }
        requires at { at ≤ length (get_or self.old.blocks block []) }
        requires room { 0 < self.old.room }
        ensures blocks { self.new.blocks ≡ split_block at self.old.blocks block }
        ensures room { self.new.room + 1 ≡ self.old.room }
    {
        let before = self.starts.get(block);
        let mut back = self.spare.pop().unwrap();
        let front = &mut self.blocks[block];
        front.split_into(at, &mut back);
        number_parts(&mut self.hints, front, &mut back);
        self.starts.insert(block + 1, before + front.len());
        self.min_depths.set(block, front.least());
        self.min_depths.insert(block + 1, back.least());
        self.hints.set_block(front.number(), block);
        self.hints.set_block(back.number(), block + 1);
        let inserted = self.blocks.insert(block + 1, back);
        prove!(inserted.is_ok());
        self.room -= 1;
        self.note_split();
    }

    /// One more block was split. After some the hints are told where all stand.
    fn note_split(&mut self)
        ensures { self.new ≡ self.old }
    {
        self.splits = self.splits.saturating_add(1);
        if self.splits > most_splits(self.blocks.len()) {
            self.splits = 0;
            hint_blocks(&mut self.hints, &self.blocks);
        }
    }

    /// Memory for so many more nodes: after it so many insertions take none.
    pub fn reserve(&mut self, n: usize) -> Result<(), AllocError>
        ensures blocks { self.new.blocks ≡ self.old.blocks }
        ensures ok { OnOk result (n ≤ self.new.room) }
        ensures grows { self.old.room ≤ self.new.room }
        ensures err { OnErr result (self.new ≡ self.old) }
    {
        if n <= self.room {
            return Ok(());
        }
        if usize::MAX - self.len < n {
            return Err(AllocError);
        }
        self.blocks.reserve(n)?;
        self.starts.reserve(n)?;
        self.min_depths.reserve(n)?;
        self.hints.reserve(n)?;
        self.position_cache.reserve(n)?;
        fill(&mut self.spare, n)?;
        self.room = n;
        Ok(())
    }

    /// Frees blocks that are held ready beyond those that are promised, all but some.
    pub fn free_spares(&mut self)
        ensures { self.new ≡ self.old }
    {
        let kept = self.room.saturating_add(SPARES);
        self.spare.truncate(kept);
    }

    /// Each node whose place has one in the map gets that.
    pub fn rename_all(&mut self, new: &PlaceMap)
        ensures nodes { nodes_in self.new.blocks ≡ nodes_renamed (place_for new.now) (nodes_in self.old.blocks) }
        ensures room { self.new.room ≡ self.old.room }
    {
        rename_blocks(&mut self.blocks, &mut self.hints, new);
    }

    /// These nodes in blocks.
    pub fn of(alloc: Global, nodes: &[Node]) -> Result<Blocks, AllocError>
        requires { 0 < length nodes.now }
        ensures nodes { IfOk result (λ b. nodes_in b.blocks ≡ nodes.now) }
    {
        let mut blocks = Vec::new(alloc);
        let mut hints = Hints::none(alloc);
        hints.reserve(nodes.len())?;
        let mut rest = nodes;
        while !rest.is_empty() {
            let (first, others) = rest.split_at(FILLED.min(rest.len()));
            let mut block = Block::empty(alloc)?;
            block.extend(first);
            let number = hints.number();
            block.set_number(number);
            hint_nodes(&mut hints, &block);
            blocks.push(block).map_err(AllocError::from)?;
            rest = others;
        }
        hint_blocks(&mut hints, &blocks);
        let mut starts = Starts::with_capacity(alloc, blocks.len())?;
        count(&mut starts, &blocks);
        let mut cache = PositionCache::none(alloc);
        cache.reserve(nodes.len())?;
        cache_blocks(&mut cache, &blocks);
        let mut min_depths = MinDepths::with_capacity(alloc, blocks.len())?;
        list_min_depths(&mut min_depths, &blocks);
        Ok(Blocks {
            blocks,
            starts,
            min_depths,
            spare: Vec::new(alloc),
            room: 0,
            len: nodes.len(),
            behind: least_of(behind_first(nodes)),
            deepest: most_of(nodes),
            thinned: 0,
            splits: 0,
            hints,
            position_cache: cache,
        })
    }

    /// The nodes as one list, with room for so many at least.
    pub fn flat(&self, alloc: Global, room: usize) -> Result<Vec<Node>, AllocError>
        ensures nodes { IfOk result (λ nodes. nodes.items ≡ nodes_in self.now.blocks) }
        ensures room { IfOk result (λ nodes. room ≤ vec_capacity nodes) }
    {
        let mut nodes = Vec::with_capacity(alloc, room)?;
        for block in &self.blocks {
            nodes.extend_from_slice(block.nodes())?;
        }
        Ok(nodes)
    }

    /// The nodes from a position to another.
    pub fn copy(&self, alloc: Global, from: usize, to: usize) -> Result<Vec<Node>, AllocError>
        requires rising { from ≤ to }
        requires within { to ≤ length (nodes_in self.now.blocks) }
        ensures { IfOk result (λ nodes. nodes.items ≡ slice_range (nodes_in self.now.blocks) from to) }
    {
        let mut nodes = Vec::with_capacity(alloc, to - from)?;
        while nodes.len() < to - from {
            let at = from + nodes.len();
            let Seat { block, offset } = self.seat_of(at);
            let there = self.blocks[block].nodes();
            let end = there.len().min(offset + (to - at));
            nodes.extend_from_slice(&there[offset..end])?;
        }
        Ok(nodes)
    }

    /// Takes the nodes from a position of one block to another out.
    fn remove_in_block(&mut self, block: usize, from: usize, to: usize)
        requires block { block < length self.old.blocks }
        requires rising { from ≤ to }
        requires within { to ≤ length (get_or self.old.blocks block []) }
        ensures blocks { self.new.blocks ≡ set self.old.blocks block (take from (get_or self.old.blocks block []) ++ drop to (get_or self.old.blocks block [])) }
        ensures room { self.new.room ≡ self.old.room }
    {
        let thins = thins(&self.blocks, block, to - from);
        let removed = &mut self.blocks[block];
        forget_nodes(&mut self.hints, &removed.nodes()[from..to]);
        removed.remove(from, to);
        self.thinned = self.thinned.saturating_add(usize::from(thins));
        self.len -= to - from;
        self.starts.subtract(block, to - from);
    }

    /// Takes the nodes from a position to another out.
    fn remove(&mut self, from: usize, to: usize)
        requires rising { from ≤ to }
        requires within { to ≤ length (nodes_in self.old.blocks) }
        ensures nodes { nodes_in self.new.blocks ≡ take from (nodes_in self.old.blocks) ++ drop to (nodes_in self.old.blocks) }
        ensures room { self.new.room ≡ self.old.room }
    {
        let mut left = to - from;
        while left > 0 {
            let Seat { block, offset } = self.seat_of(from);
            let len = self.blocks[block].len();
            let taken = left.min(len - offset);
            self.remove_in_block(block, offset, offset + taken);
            left -= taken;
        }
    }

    /// Takes ranges out. Where most nodes go, all hints go at once, and those of the others are noted anew.
    pub fn remove_all(&mut self, ranges: &[Range<usize>])
        requires { AreRising 0 ranges.now (length (nodes_in self.old.blocks)) }
        ensures nodes { nodes_in self.new.blocks ≡ outside 0 ranges.now (nodes_in self.old.blocks) }
        ensures room { self.new.room ≡ self.old.room }
    {
        let most_go = self.len - self.len / 4 < nodes_of_ranges(ranges);
        if most_go {
            self.hints.forget();
        }
        self.remove_ranges(ranges);
        if most_go {
            note_all(&mut self.hints, &self.blocks);
        }
    }

    /// Takes ranges out.
    fn remove_ranges(&mut self, ranges: &[Range<usize>])
        requires { AreRising 0 ranges.now (length (nodes_in self.old.blocks)) }
        ensures nodes { nodes_in self.new.blocks ≡ outside 0 ranges.now (nodes_in self.old.blocks) }
        ensures room { self.new.room ≡ self.old.room }
    {
        let mut gone = 0;
        for range in ranges {
            self.remove(range.start - gone, range.end - gone);
            gone += range.end - range.start;
        }
        self.renew_cache(gone);
        // To close up is a pass over all blocks, so many blocks wait for it where there are many.
        if self.thinned > self.blocks.len() / THIN {
            self.close_up();
        }
    }

    /// So many nodes came or went. Where that was much, it is noted anew which blocks have which positions.
    fn renew_cache(&mut self, moved: usize)
        ensures { self.new ≡ self.old }
    {
        self.position_cache.tell(moved);
        if self.position_cache.are_old(self.len) {
            cache_blocks(&mut self.position_cache, &self.blocks);
        }
    }

    /// Joins blocks of few nodes, and lets those go that have none, if others have some.
    fn close_up(&mut self)
        ensures nodes { nodes_in self.new.blocks ≡ nodes_in self.old.blocks }
        ensures room { self.new.room ≡ self.old.room }
    {
        if self.len == 0 {
            return;
        }
        self.thinned = 0;
        join_sparse(&mut self.blocks, &mut self.hints);
        free_empty(&mut self.hints, &self.blocks);
        self.blocks.retain(|block| !block.nodes().is_empty());
        count(&mut self.starts, &self.blocks);
        cache_blocks(&mut self.position_cache, &self.blocks);
        list_min_depths(&mut self.min_depths, &self.blocks);
        self.splits = 0;
        hint_blocks(&mut self.hints, &self.blocks);
    }

    /// Puts parts into their gaps. This takes no memory.
    pub fn put_back(&mut self, gaps: &[usize], parts: &[Slice])
        requires gaps { AreGaps 0 gaps.now (length (nodes_in self.old.blocks)) }
        requires each_part { length gaps.now ≡ length parts.now }
        requires room { count_of (nodes_of parts.now) ≤ self.old.room }
        ensures nodes { nodes_in self.new.blocks ≡ joined 0 (nodes_in self.old.blocks) gaps.now (nodes_of parts.now) }
        ensures room { self.new.room + count_of (nodes_of parts.now) ≡ self.old.room }
    {
        // From the last on, so that the gaps to come stand where they stood.
        for k in (0..parts.len()).rev() {
            self.insert_all(gaps[k], &parts[k].nodes);
        }
    }

    /// Puts nodes in at a position. This takes no memory.
    fn insert_all(&mut self, i: usize, nodes: &[Node])
        requires within { i ≤ length (nodes_in self.old.blocks) }
        requires room { length nodes.now ≤ self.old.room }
        ensures nodes { nodes_in self.new.blocks ≡ take i (nodes_in self.old.blocks) ++ (nodes.now ++ drop i (nodes_in self.old.blocks)) }
        ensures room { self.new.room + length nodes.now ≡ self.old.room }
    {
        for k in (0..nodes.len()).rev() {
            self.insert(i, nodes[k]);
        }
    }
}

/// How many nodes stand before each of some blocks. This takes no memory.
fn count(starts: &mut Starts, blocks: &[Block])
    requires room { length blocks.now ≤ starts.old.capacity }
    requires fits { length (nodes_in blocks.now) < 2 ^ 64 }
    ensures starts { AreStarts blocks.now starts.new }
    ensures capacity { starts.old.capacity ≤ starts.new.capacity }
{
    starts.clear();
    let mut before = 0;
    for block in blocks {
        starts.push(before);
        before += block.len();
    }
}

/// For each of some blocks a depth that none of its nodes goes below. This takes no memory.
fn list_min_depths(min_depths: &mut MinDepths, blocks: &[Block])
    requires room { length blocks.now ≤ min_depths.old.capacity }
    ensures min_depths { AreMinDepths blocks.now min_depths.new.min_depths }
    ensures capacity { min_depths.old.capacity ≤ min_depths.new.capacity }
{
    min_depths.clear();
    for block in blocks {
        min_depths.push(block.least());
    }
}

/// Whether a block comes to have no nodes, when so many go, or so few that it can be joined to one beside it.
fn thins(blocks: &[Block], block: usize, gone: usize) -> bool {
    let before = len_of(blocks, block);
    let left = before.saturating_sub(gone);
    let front = len_of(blocks, block.wrapping_sub(1));
    let beside = front.min(len_of(blocks, block.saturating_add(1)));
    left == 0 || left.saturating_add(beside) <= JOINED && JOINED < before.saturating_add(beside)
}

/// How many nodes a block has; where there is no such block, as many as a full one, to which none is joined.
fn len_of(blocks: &[Block], block: usize) -> usize {
    match blocks.get(block) {
        Some(block) => block.len(),
        None => BLOCK_SIZE,
    }
}

/// How many nodes of a full block stay in it when it is split for a node at a seat. Either part has a third of a block
/// at least, so that many nodes have to come before it is split again. At the front and at the end of the list one part
/// may have fewer, and the other is almost full: nodes put in there, one before or behind another, leave full blocks.
fn front_of_split(seat: Seat, blocks: usize) -> usize
    ensures some { 0 < result }
    ensures less { result < 128 }
    ensures front { 0 < seat.block → seat.block + 1 < blocks → 43 ≤ result }
    ensures back { 0 < seat.block → seat.block + 1 < blocks → result + 43 ≤ block_size }
{
    if seat.block == 0 && seat.offset <= FRONT {
        seat.offset.max(1)
    } else if seat.block.saturating_add(1) >= blocks && seat.offset >= BLOCK_SIZE {
        BLOCK_SIZE - 1
    } else {
        seat.offset.max(THIRD).min(BLOCK_SIZE - THIRD)
    }
}

/// Joins blocks that stand side by side, where they have few enough nodes together. The second of two that are joined
/// has no nodes then.
fn join_sparse(blocks: &mut Vec<Block>, hints: &mut Hints)
    ensures nodes { nodes_in blocks.new.items ≡ nodes_in blocks.old.items }
    ensures fewer { length blocks.new.items ≤ length blocks.old.items }
    ensures capacity { vec_capacity blocks.old ≤ vec_capacity blocks.new }
{
    for k in (1..blocks.len()).rev() {
        if blocks[k - 1].len() + blocks[k].len() <= JOINED {
            join(blocks, hints, k);
        }
    }
}

/// Moves the nodes of a block to the one before it.
fn join(blocks: &mut [Block], hints: &mut Hints, k: usize)
    requires some { 0 < k }
    requires within { k < length blocks.old }
    requires few { length (get_or blocks.old (k - 1) []) + length (get_or blocks.old k []) ≤ block_size }
    ensures nodes { nodes_in blocks.new ≡ nodes_in blocks.old }
    ensures count { length blocks.new ≡ length blocks.old }
{
    let (fronts, backs) = blocks.split_at_mut(k);
    let front = &mut fronts[k - 1];
    let back = &mut backs[0];
    let before = front.len();
    front.extend(back.nodes());
    back.clear();
    hint_from(hints, front, before);
}

/// Blocks of no nodes, until there are so many.
fn fill(blocks: &mut Vec<Block>, n: usize) -> Result<(), AllocError>
    ensures more { length blocks.old.items ≤ length blocks.new.items }
    ensures ok { OnOk result (n ≤ length blocks.new.items) }
{
    let alloc = *blocks.allocator();
    while blocks.len() < n {
        let block = Block::empty(alloc)?;
        blocks.push(block)?;
    }
    Ok(())
}

/// Each node of some blocks whose place has one in the map gets that.
fn rename_blocks(blocks: &mut [Block], hints: &mut Hints, new: &PlaceMap)
    ensures { blocks.new ≡ map (nodes_renamed (place_for new.now)) blocks.old }
{
    for block in blocks.iter_mut() {
        forget_nodes(hints, block.nodes());
        block.rename_all(new);
        hint_nodes(hints, block);
    }
}

/// A number for each of the two blocks that one became: the one with fewer nodes gets a new one, since that is noted for each of
/// its nodes. Those of the other have as many before them as they had, or from them on.
fn number_parts(hints: &mut Hints, front: &mut Block, back: &mut Block)
    ensures front { front.new ≡ front.old }
    ensures back { back.new ≡ back.old }
{
    let number = hints.number();
    if back.len() <= front.len() {
        back.set_number(number);
        hint_nodes(hints, back);
    } else {
        back.set_number(front.number());
        front.set_number(number);
        hint_nodes(hints, front);
    }
}

/// The numbers of blocks without nodes are free.
fn free_empty(hints: &mut Hints, blocks: &[Block]) {
    for block in blocks {
        if block.nodes().is_empty() {
            hints.free(block.number());
        }
    }
}

/// The places of these nodes stand nowhere.
fn forget_nodes(hints: &mut Hints, nodes: &[Node]) {
    for node in nodes {
        hints.remove(node.place);
    }
}

/// How many nodes ranges have.
fn nodes_of_ranges(ranges: &[Range<usize>]) -> usize {
    let mut nodes: usize = 0;
    for range in ranges {
        nodes = nodes.saturating_add(range.end.saturating_sub(range.start));
    }
    nodes
}

/// The places of all blocks stand there.
fn note_all(hints: &mut Hints, blocks: &[Block]) {
    for block in blocks {
        hint_nodes(hints, block);
    }
}

/// The places of a block stand there.
fn hint_nodes(hints: &mut Hints, block: &Block) {
    hint_from(hints, block, 0);
}

/// The places of the nodes of a block from a position on stand there.
fn hint_from(hints: &mut Hints, block: &Block, from: usize) {
    let number = block.number();
    let nodes = block.nodes();
    for i in from..nodes.len() {
        hints.put(nodes[i].place, number, i, nodes.len());
    }
}

/// Which blocks have which positions.
fn cache_blocks(cache: &mut PositionCache, blocks: &[Block]) {
    cache.clear();
    let mut end = 0_usize;
    for k in 0..blocks.len() {
        end = end.saturating_add(blocks[k].len());
        cache.put(end, k);
    }
}

/// How many of so many blocks may be split before the hints are told where all stand.
fn most_splits(blocks: usize) -> usize {
    (blocks / GROUPED).min(SPLITS)
}

/// Where the blocks stand.
fn hint_blocks(hints: &mut Hints, blocks: &[Block]) {
    for k in 0..blocks.len() {
        hints.set_block(blocks[k].number(), k);
    }
}
