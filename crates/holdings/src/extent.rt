//! How far a strip of pages reaches, and so who works it.

use crate::holdings::Holdings;
use crate::phase::{is_small, is_worked_alone, most_pieces};
use crew::Workers;
use maptree::Tree;
use space::Place;

/// What a strip passes over.
#[derive(Clone, Copy)]
struct Extent {
    /// How many mappings derive from the pages, with their own.
    mappings: usize,
    /// How many pieces have them.
    pieces: usize,
}

/// What is known of pages before they are stripped.
#[derive(Clone, Copy)]
pub(crate) struct Outlook {
    /// Whether each has a greater frame than the one before it, so that none derives from another.
    pub(crate) are_apart: bool,
    /// How many mappings their trees have, each counted for each page; 0 where nothing is ever shared.
    pub(crate) most_mappings: usize,
}

impl Holdings {
    ghost use Rattle.std.specs.Prelude.{◌≤◌};
    ghost use Rattle.std.specs.List.{All};
    ghost use Rattle.holdings.specs.Places.{IsWithin};

    /// What one look at each of these pages tells of a strip of them.
    pub(crate) fn outlook<W: Workers>(&self, places: &[Place], workers: &W) -> Outlook
        requires { All (IsWithin self.now.limits) places.now }
    {
        // Where nothing is ever shared, nothing need be counted.
        let is_ever_shared = workers.shared_from() != usize::MAX;
        let mut outlook = Outlook {
            are_apart: true,
            most_mappings: 0,
        };
        if places.len() < 2 && !is_ever_shared {
            return outlook;
        }
        let mut last = None;
        for place in places {
            let Some(entry) = self.shards.get(*place) else {
                continue;
            };
            outlook.are_apart = outlook.are_apart && last < Some(entry.frame);
            last = Some(entry.frame);
            if is_ever_shared {
                let mappings = self.trees[entry.frame as usize].len();
                outlook.most_mappings = outlook.most_mappings.saturating_add(mappings);
            }
        }
        outlook
    }

    /// Whether the calling thread strips these pages alone, of which none derives from another. So many mappings at most
    /// are in their trees.
    pub(crate) fn are_stripped_alone<W: Workers>(
        &self,
        places: &[Place],
        most_mappings: usize,
        workers: &W,
    ) -> bool
        requires { All (IsWithin self.now.limits) places.now }
    {
        if is_small(most_mappings, workers) {
            return true;
        }
        let enough = most_pieces(most_mappings, workers);
        let extent = self.extent(places, workers.piece_length(), enough);
        is_worked_alone(extent.mappings, extent.pieces, workers)
    }

    /// What a strip of these pages passes over, in pieces of at most so many mappings, or of some of the pages that have
    /// more pieces than enough.
    fn extent(&self, places: &[Place], length: usize, enough: usize) -> Extent
        requires within { All (IsWithin self.now.limits) places.now }
        requires some { 1 ≤ length }
    {
        let mut extent = Extent {
            mappings: 0,
            pieces: 0,
        };
        for place in places {
            if extent.pieces > enough {
                break;
            }
            if let Some(entry) = self.shards.get(*place) {
                let more = run_len(&self.trees[entry.frame as usize], *place);
                extent.mappings = extent.mappings.saturating_add(more);
                extent.pieces = extent.pieces.saturating_add(more.div_ceil(length));
            }
        }
        extent
    }
}

/// How many places of a tree derive from a place, with itself.
fn run_len(tree: &Tree, place: Place) -> usize {
    let Some(i) = tree.find(place) else {
        return 0;
    };
    if i == 0 {
        // All others derive from the root of a frame.
        return tree.len();
    }
    let run = tree.run_of(i);
    run.end.saturating_sub(run.start)
}
