//! A move at work.

ghost use Rattle.std.specs.Prelude.{◌≡◌, ◌+◌, ◌*◌, ◌<◌, Some, length, slice_get};
ghost use Rattle.pieces.specs.declared.piece.Piece.TheVariants as piece;

use crate::post::Post;
use crate::shared_words::SharedWords;
use pieces::Move;
use pieces::steps::moved;

/// The next step of a move: a word is taken, or put where its page moves to.
pub(crate) fn step(pairs: &Move, hint: usize, post: &mut Post, shared: &SharedWords)
    requires of { post.old.shared ≡ shared.now }
    requires piece { slice_get shared.now.opening.pieces post.old.number ≡ Some (piece.Move pairs.now) }
    requires left { post.old.steps < 2 * length pairs.now }
    ensures { post.new ≡ record post.old { steps = post.old.steps + 1 } }
{
    let k = post.steps();
    if k / 2 < pairs.len() {
        shared.learn_can_be_worked();
        let pair = pairs.pair(k / 2);
        if k % 2 == 0 {
            post.write(shared, pair.taken, 0, hint.wrapping_add(k));
        } else {
            let source = shared.word(pair.taken);
            post.write(shared, pair.put, moved(source), hint.wrapping_add(k));
        }
    }
}
