//! What belongs to frames, in groups of one frame.

ghost use Rattle.std.specs.Prelude.{◌≡◌, ◌==◌, ◌<◌, ◌≤◌, ℕ, true, length, get_or};
ghost use Rattle.std.specs.List.{list_all, slice_range};

/// What belongs to a frame.
pub trait OfFrame {
    ghost frame_of: { Self → ℕ };

    fn frame(&self) -> u32
        ensures { result ≡ frame_of self.now };
}

/// The end of the group that begins at a position: all that stands from there up to it is of one frame, and what stands behind it is
/// not.
pub fn group_end<T: OfFrame>(items: &[T], from: usize) -> usize
    requires { from < length items.now }
    ensures some { from < result }
    ensures within { result ≤ length items.now }
    ensures ends { (d : T) → result < length items.now → T.frame_of (get_or items.now result d) ≡ T.frame_of (get_or items.now from d) → ⊥ }
    ensures frames { (d : T) → list_all (λ x. T.frame_of x == T.frame_of (get_or items.now from d)) (slice_range items.now from result) ≡ true }
{
    let frame = items[from].frame();
    for i in from + 1..items.len() {
        if items[i].frame() != frame {
            return i;
        }
    }
    items.len()
}
