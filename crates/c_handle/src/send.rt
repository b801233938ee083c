//! Maps and grants.

ghost use Rattle.std.specs.Prelude.{◌≡◌, ◌<◌, ◌^◌, Some};
ghost use Rattle.model.specs.Laws.SendLaws.{total};
ghost use Rattle.mapdb.specs.Meaning.{counts_of};
ghost use Rattle.std.specs.Result.{OnOk};
ghost use Rattle.mapdb.specs.Held.{NotesTell};
ghost use Rattle.c_handle.specs.Asked.{send_asked};
ghost use Rattle.c_handle.specs.Errors.{result_code};
ghost use Rattle.c_handle.specs.Replied.{counts_in};
ghost use Rattle.c_handle.specs.Sent.{IsSent};

use crate::answer::done;
use crate::asked::SendAsked;
use crate::error::CallError;
use crate::kept::Kept;
use crew::Alone;
use fields::read_items;
use fpage::{Fpage, Item, ItemKind};
use mapdb::{Refusal, Reply, Sending};
use std::alloc::Global;

/// How many items a message has at most.
const MOST_ITEMS: usize = 31;

/// How many pages had which outcome, over all items of a send.
#[repr(C)]
#[derive(Clone, Copy, Debug, PartialEq, Eq)]
pub struct SendReply {
    /// The sender's page holds nothing.
    pub absent: u32,
    /// It holds none of the rights that the item asks for.
    pub norights: u32,
    /// The receiver's page is one from which the sender's page came.
    pub origin: u32,
    /// The sender's page was gone before its turn: it came from a receiver's page that the item replaces. The
    /// receiver's page of the pair is gone too, if it was held.
    pub lost: u32,
    /// The receiver's page came from the sender's already, and got the rights that it lacked.
    pub extended: u32,
    /// The receiver's page came from the sender's by this call.
    pub linked: u32,
}

/// The counts in words.
fn counts(reply: mapdb::SendReply) -> SendReply
    requires { total (counts_of reply) < 2 ^ 32 }
    ensures { result ≡ counts_in (counts_of reply) }
{
    SendReply {
        absent: reply.absent as u32,
        norights: reply.norights as u32,
        origin: reply.origin as u32,
        lost: reply.lost as u32,
        extended: reply.extended as u32,
        linked: reply.linked as u32,
    }
}

/// Sends the items of words, and writes how many pages had which outcome to `reply`. The words take no memory.
///
/// Refused, the first that fits: a halted database; `BadRecord`, for the number of words; what `Fpage::read` refuses of the
/// window, and then what `Item::read` refuses of each item in order; and what `Database::send` refuses. Then `reply` is as it
/// was.
pub fn send(
    alloc: Global,
    kept: &mut Kept,
    asked: &SendAsked<'_>,
    reply: &mut SendReply,
) -> Result<(), CallError>
    ensures called { IsSent (send_asked asked.now.from asked.now.to asked.now.window asked.now.words.now kept.old.database.limits) kept.old.database reply.old
        (record { code = result_code result; held = Some kept.new.database; lent = reply.new }) }
    ensures told { OnOk result (NotesTell kept.old.database.holdings kept.new.database.holdings kept.old.scratch.notes kept.new.scratch.notes) }
{
    if kept.database.is_halted() {
        return Err(CallError::Halted);
    }
    let words = asked.words;
    if words.len() % 2 != 0 || words.len() < 2 || words.len() > 2 * MOST_ITEMS {
        return Err(CallError::Refused(Refusal::BadRecord));
    }
    let bits = kept.database.limits().bits;
    let window = Fpage::read(asked.window, bits)?;
    // What stands in the items before they are read has no meaning.
    let mut items = [Item {
        kind: ItemKind::Map,
        base: 0,
        sent: window,
    }; MOST_ITEMS];
    read_items(words, bits, &mut items)?;
    let items = &items[..words.len() / 2];
    let send = Sending {
        from: asked.from,
        to: asked.to,
        window,
        items,
    };
    let answered = done(
        kept.database
            .answer_send(alloc, &send, &mut kept.scratch, &Alone),
    )?;
    if let Reply::Sent(sent) = answered {
        *reply = counts(sent);
    }
    Ok(())
}
