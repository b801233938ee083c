//! Derivation trees, in the order in which they are drawn.

ghost use Rattle.std.specs.Prelude.{◌≡◌, IfOk, map};
ghost use Rattle.std.specs.List.Sorted.{IsPermutation};
ghost use Rattle.l4trace_drawings.specs.Tree.{mapping_in};

use mapdb::Mapping;
use space::Place;
use std::alloc::{AllocError, Global};

/// A mapping, and where it stands in the drawing of its tree.
#[derive(Clone, Copy, Debug, PartialEq, Eq)]
pub struct Row {
    pub mapping: Mapping,
    /// How many origins are above it: 0 for a root.
    pub depth: usize,
    /// Whether no other mapping with the same origin stands below it.
    pub is_last: bool,
    /// Which row it is, from 0.
    pub rank: usize,
}

/// For each of some mappings, by its index, others of them that stand beside it in its tree.
#[derive(Drop)]
struct Links {
    /// The index of the mapping from which it comes.
    origins: Vec<Option<usize>>,
    /// The first mapping that comes from it.
    first: Vec<Option<usize>>,
    /// The next mapping with the same origin, and for roots the next root.
    next: Vec<Option<usize>>,
    /// The first root.
    root: Option<usize>,
}

/// The mapping of a place, among mappings by rising place.
pub fn index_of(mappings: &[Mapping], place: Place) -> Option<usize> {
    let mut low = 0usize;
    let mut high = mappings.len();
    for _ in 0..64 {
        if low >= high {
            return None;
        }
        let middle = low + (high - low) / 2;
        let found = mappings.get(middle)?.place;
        if found == place {
            return Some(middle);
        }
        if found < place {
            low = middle + 1;
        } else {
            high = middle;
        }
    }
    None
}

/// The index of the mapping from which one comes, among mappings by rising place, if it is of the same frame.
fn origin_in(mappings: &[Mapping], mapping: &Mapping) -> Option<usize> {
    let index = index_of(mappings, mapping.origin?)?;
    if mappings.get(index)?.frame == mapping.frame {
        Some(index)
    } else {
        None
    }
}

/// No links of so many mappings.
fn no_links(alloc: Global, count: usize) -> Result<Vec<Option<usize>>, AllocError> {
    let mut links = Vec::with_capacity(alloc, count)?;
    for _ in 0..count {
        links.push(None)?;
    }
    Ok(links)
}

/// Writes a link, if its index is one.
fn put(links: &mut [Option<usize>], index: usize, to: Option<usize>) {
    if let Some(link) = links.get_mut(index) {
        *link = to;
    }
}

/// The link at an index.
fn link(links: &[Option<usize>], index: usize) -> Option<usize> {
    links.get(index).copied().unwrap_or(None)
}

impl Links {
    /// The links of mappings by rising place. Mappings whose origin is none of them, or of another frame, are roots.
    fn new(alloc: Global, mappings: &[Mapping]) -> Result<Self, AllocError> {
        let count = mappings.len();
        let mut links = Links {
            origins: no_links(alloc, count)?,
            first: no_links(alloc, count)?,
            next: no_links(alloc, count)?,
            root: None,
        };
        for (i, mapping) in mappings.iter().enumerate().rev() {
            links.add(i, origin_in(mappings, mapping));
        }
        Ok(links)
    }

    /// Puts a mapping before the others with its origin.
    fn add(&mut self, index: usize, origin: Option<usize>) {
        put(&mut self.origins, index, origin);
        match origin {
            Some(above) => {
                let next = link(&self.first, above);
                put(&mut self.next, index, next);
                put(&mut self.first, above, Some(index));
            }
            None => {
                put(&mut self.next, index, self.root);
                self.root = Some(index);
            }
        }
    }

    /// The mapping that is drawn behind another, and how many levels higher it stands than what comes from that.
    fn behind(&self, index: usize) -> Option<(usize, usize)> {
        if let Some(below) = link(&self.first, index) {
            return Some((below, 0));
        }
        let mut at = index;
        for up in 1..=self.origins.len() {
            if let Some(next) = link(&self.next, at) {
                return Some((next, up));
            }
            at = link(&self.origins, at)?;
        }
        None
    }
}

/// Where a mapping stands in a drawing.
#[derive(Clone, Copy)]
struct Position {
    rank: usize,
    depth: usize,
}

/// The position of each mapping: trees one after another, each mapping above those that come from it, and these by rising
/// place.
fn positions(alloc: Global, links: &Links, count: usize) -> Result<Vec<Position>, AllocError> {
    let mut positions = Vec::with_capacity(alloc, count)?;
    for _ in 0..count {
        positions.push(Position {
            rank: count,
            depth: 0,
        })?;
    }
    let mut depth = 0usize;
    let mut next = links.root;
    for rank in 0..count {
        let Some(index) = next else {
            break;
        };
        if let Some(position) = positions.get_mut(index) {
            *position = Position { rank, depth };
        }
        next = None;
        if let Some((behind, up)) = links.behind(index) {
            next = Some(behind);
            depth = depth.saturating_add(1).saturating_sub(up);
        }
    }
    Ok(positions)
}

/// The rows in which mappings by rising place are drawn, by rising frame: each mapping in one row, above those that come from it.
pub fn tree_rows(alloc: Global, mappings: &[Mapping]) -> Result<Vec<Row>, AllocError>
    ensures { IfOk result (λ rows. IsPermutation mappings.now (map mapping_in rows.items)) }
{
    let links = Links::new(alloc, mappings)?;
    let positions = positions(alloc, &links, mappings.len())?;
    let mut rows = rows_of(alloc, mappings, &links, &positions)?;
    rows.sort_by_key(|row| (row.mapping.frame, row.rank))?;
    Ok(rows)
}

/// A row for each mapping, in the same order.
fn rows_of(
    alloc: Global,
    mappings: &[Mapping],
    links: &Links,
    positions: &[Position],
) -> Result<Vec<Row>, AllocError>
    ensures { IfOk result (λ rows. map mapping_in rows.items ≡ mappings.now) }
{
    let mut rows = Vec::with_capacity(alloc, mappings.len())?;
    for (i, mapping) in mappings.iter().enumerate() {
        let Position { rank, depth } = position_at(positions, i);
        rows.push(Row {
            mapping: *mapping,
            depth,
            is_last: link(&links.next, i).is_none(),
            rank,
        })?;
    }
    Ok(rows)
}

/// The position at an index; the last where there is none.
fn position_at(positions: &[Position], index: usize) -> Position {
    positions.get(index).copied().unwrap_or(Position {
        rank: usize::MAX,
        depth: 0,
    })
}
