//! Records one after another, and the episodes that some of them belong to.

use crate::traces::{Episode, Traces};
use crate::wanted::Wanted;
use std::alloc::AllocError;

impl Traces {
    /// Makes the next record, of which so many are still to come.
    pub fn record(&mut self, to_come: u64) -> Result<(), AllocError> {
        self.made = self.made.wrapping_add(1);
        self.line.clear(false);
        if self.dice.chance(self.plan.refused) {
            self.refuse()?;
        } else {
            let is_wide = self.dice.chance(6);
            self.line.clear(is_wide);
            self.record_good(to_come)?;
        }
        self.line.push_str("\n")
    }

    /// Makes the next record, one that is not refused.
    fn record_good(&mut self, to_come: u64) -> Result<(), AllocError> {
        if self.left == 0 && to_come > 100 {
            let is_last = to_come <= 120;
            let percent = if is_last { 100 } else { 12 };
            if self.dice.chance(percent) {
                self.begin_episode(is_last);
            }
        }
        if self.left > 0 {
            return if self.dice.chance(88) {
                self.go_on()
            } else {
                self.access()
            };
        }
        if to_come < 100 {
            self.record_late()
        } else {
            self.record_any()
        }
    }

    /// Makes a record that belongs to no episode.
    fn record_any(&mut self) -> Result<(), AllocError> {
        match self.dice.below(100) {
            0..=49 => self.send(),
            50..=79 => self.access(),
            97..=99 if self.plan.version.has_clear() => self.clear(),
            _ => self.unmap(),
        }
    }

    /// Makes such a record near the end of the trace.
    fn record_late(&mut self) -> Result<(), AllocError> {
        match self.dice.below(100) {
            0..=14 => self.send(),
            15..=59 => self.access(),
            _ => self.late_unmap(),
        }
    }

    /// Begins an episode.
    fn begin_episode(&mut self, is_last: bool) {
        let mut episode = match self.dice.below(100) {
            0..=16 => Episode::Chain,
            17..=50 => Episode::Knot,
            51..=75 => Episode::Nested,
            _ => Episode::Fold,
        };
        if self.lacks(self.lost) {
            episode = Episode::Knot;
        }
        if is_last {
            episode = Episode::Chain;
        }
        self.episode = episode;
        match episode {
            Episode::Chain => self.begin_chain(),
            Episode::Knot => {
                let knot = self.scan(Wanted::Knot);
                self.begin_about(knot);
            }
            Episode::Nested => {
                self.knot = None;
                self.left = 4;
            }
            _ => {
                let inner = match self.nested() {
                    Some(nested) => Some(nested.inner),
                    None => None,
                };
                self.begin_about(inner);
            }
        }
    }

    /// Has an episode go on about a slot, if there is one.
    pub fn begin_about(&mut self, slot: Option<u8>) {
        self.knot = slot;
        self.left = if slot.is_some() { 4 } else { 0 };
    }

    /// Begins a chain at a root.
    fn begin_chain(&mut self) {
        let root = self.scan(Wanted::Root);
        if root.is_some() {
            self.tip = root;
            self.left = self.dice.below(6).wrapping_add(13);
        }
    }

    /// Makes the next record of an episode.
    fn go_on(&mut self) -> Result<(), AllocError> {
        self.left = self.left.saturating_sub(1);
        match self.episode {
            Episode::Chain => self.chain_on(),
            Episode::Knot => self.knot_on(),
            Episode::Nested => self.nested_on(),
            Episode::Fold => self.fold_on(),
            Episode::Look => self.access_of(self.look.place, self.look.right),
            Episode::Ask => self.ask(),
            Episode::Replace => self.replace_on(),
            Episode::Late => self.late_on(),
            Episode::Clear => self.clear_on(),
            Episode::Grant => match self.knot {
                Some(knot) => self.grant(knot),
                None => self.access(),
            },
            Episode::Extend => match self.knot {
                Some(knot) => self.extend(knot),
                None => self.access(),
            },
        }
    }
}
