//! The runs that a strip is about, and the pieces of this work.

use crate::piece::Piece;
use std::marker::Model;
use std::ops::Range;
use std::slice;

/// Runs of a tree, in rising order. A single one takes no memory.
#[derive(Drop)]
pub struct Runs {
    form: Form,
}

#[derive(Drop)]
enum Form {
    One(Range<usize>),
    Many(Vec<Range<usize>>),
}

impl Model for Runs {
    ghost use Rattle.std.specs.Prelude.{ℕ, List};
    ghost use Rattle.std.specs.declared.ops.Range.{Range};
    ghost use Rattle.pieces.specs.RunForms.{runs_in};

    ghost Value = { List (Range ℕ) };

    ghost view = { λ r. runs_in r.form };
}

impl Runs {
    ghost use Rattle.std.specs.Prelude.{◌≡◌, [], ◌∷◌, length};

    /// One run.
    pub fn one(run: Range<usize>) -> Runs
        ensures { result ≡ run ∷ [] }
    {
        Runs {
            form: Form::One(run),
        }
    }

    /// These runs.
    pub fn many(runs: Vec<Range<usize>>) -> Runs
        ensures { result ≡ runs.items }
    {
        Runs {
            form: Form::Many(runs),
        }
    }

    /// How many they are.
    pub fn len(&self) -> usize
        ensures { result ≡ length self.now }
    {
        self.as_slice().len()
    }

    /// They, as a slice.
    pub fn as_slice(&self) -> &[Range<usize>]
        ensures { result.now ≡ self.now }
    {
        match &self.form {
            Form::One(run) => slice::from_ref(run),
            Form::Many(runs) => runs,
        }
    }
}

/// The outermost runs of some pages of one frame, in its tree.
#[derive(Drop)]
pub struct FrameRuns {
    pub frame: u32,
    pub runs: Runs,
}

/// The runs that are stripped, and the pieces of this work.
#[derive(Drop)]
pub struct StripPlan {
    pub frames: Vec<FrameRuns>,
    pub pieces: Vec<Piece>,
}
