//! A link at work.

ghost use Rattle.std.specs.Prelude.{◌≡◌, ◌+◌, ◌<◌, Some, length, slice_get};
ghost use Rattle.pieces.specs.declared.piece.Piece.TheVariants as piece;

use crate::post::Post;
use crate::shared_words::SharedWords;
use pieces::Link;
use pieces::steps::linked;

/// The next step of a link: a word is put, made of the words at opening.
pub(crate) fn step(link: &Link, hint: usize, post: &mut Post, shared: &SharedWords)
    requires of { post.old.shared ≡ shared.now }
    requires piece { slice_get shared.now.opening.pieces post.old.number ≡ Some (piece.Link link.now) }
    requires left { post.old.steps < length link.now }
    ensures { post.new ≡ record post.old { steps = post.old.steps + 1 } }
{
    let k = post.steps();
    if k < link.len() {
        shared.learn_can_be_worked();
        let store = link.store(k);
        let source = shared.word(store.read);
        let hint = hint.wrapping_add(k);
        let target = post.see(shared, store.put, hint);
        let word = linked(target, source, store.rights);
        post.write(shared, store.put, word, hint);
    }
}
