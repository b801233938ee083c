//! A call, answered.

ghost use Rattle.std.specs.Prelude.{◌≡◌, false, IfOk, IfErr};
ghost use Rattle.model.specs.Definitions.Answers.{clear_answer};
ghost use Rattle.model.specs.Definitions.Calls.{clear};
ghost use Rattle.mapdb.specs.Answered.{refused_by};

use crate::call::{Call, Refusal, Sending, Unmap};
use crate::database::Database;
use crate::error::DbError;
use crate::reply::Reply;
use crew::Workers;
use fpage::Access;
use holdings::Notes;
use space::Place;
use std::alloc::Global;
use std::mem;

/// What calls lend one another: memory that is used again, so that an answer takes none of its own, and the notes of the last
/// call, where they are asked for.
#[derive(Drop)]
pub struct Scratch {
    /// For the words of a reply.
    pub(crate) words: Vec<u32>,
    /// The pages that the last call changed; among them may be others that were held before it or are held now.
    pub notes: Notes,
}

impl Scratch {
    ghost use Rattle.std.specs.Prelude.{◌≡◌, [], false};
    ghost use Rattle.model.specs.Definitions.Calls.{unmapped};
    ghost use Rattle.mapdb.specs.Calls.{reply_of};

    /// No memory yet, and no notes are asked for.
    pub fn new(alloc: Global) -> Scratch
        ensures { result.notes.asked ≡ false }
    {
        Scratch {
            words: Vec::new(alloc),
            notes: Notes::none(alloc),
        }
    }

    /// Forgets the notes of the last call, and tells whether notes are asked for.
    pub(crate) fn forget(&mut self) -> bool
        ensures asked { result ≡ self.old.notes.asked }
        ensures kept { self.new.notes.asked ≡ self.old.notes.asked }
        ensures none { self.new.notes.list.items ≡ [] }
    {
        self.notes.forget();
        self.notes.asked
    }

    /// The answer to a call that was refused, with notes asked for as they were.
    pub(crate) fn refused(&mut self, asked: bool, error: DbError) -> Result<Reply, DbError>
        ensures answer { result ≡ refused_by error }
        ensures asked { self.new.notes.asked ≡ asked }
        ensures none { self.new.notes.list.items ≡ [] }
    {
        self.notes.ask(asked);
        refused_by(error)
    }

    /// The reply that the words are.
    pub(crate) fn reply(&mut self, alloc: Global) -> Reply
        ensures reply { reply_of result ≡ unmapped self.old.words.items }
        ensures notes { self.new.notes ≡ self.old.notes }
    {
        Reply::Unmapped(mem::replace(&mut self.words, Vec::new(alloc)))
    }

    /// Keeps the memory of a reply that is not needed any more.
    pub fn keep(&mut self, reply: Reply) {
        if let Reply::Unmapped(words) = reply {
            self.words = words;
        }
    }
}

impl Database {
    ghost use Rattle.std.specs.Prelude.{◌≡◌, true, IfOk, IfErr, IsErrOf, OnOk};
    ghost use Rattle.model.specs.Definitions.Answers.{clear_answer};
    ghost use Rattle.std.specs.List.{All};
    ghost use Rattle.fpage.specs.Fpage.{IsFpageOf};
    ghost use Rattle.model.specs.Definitions.Calls.{access as access_to, clear};
    ghost use Rattle.mapdb.specs.Noted.{NotesTell};
    ghost use Rattle.holdings.specs.Places.{IsWithin};
    ghost use Rattle.mapdb.specs.Answered.{IsAnswered, IsUnanswered, IsSendOrAccess};
    ghost use Rattle.mapdb.specs.Calls.{call_of, send_of, unmap_of, AreWordsWithin, IsWithinLimits};
    ghost use Rattle.mapdb.specs.State.{halted, left_with, refusal, IsRefused};
    ghost use Rattle.mapdb.specs.declared.error.DbError.TheVariants.{NoMemory, NoWorker};

    /// Answers a call, as `send`, `access_all`, `unmap` and `clear` do: a call that is refused for what it asks is answered
    /// by its refusal. Where notes are asked for, they then name every page whose frame or rights the call
    /// changed, and none that was held neither before it nor after it.
    ///
    /// With `plain` an unmap and a clear are worked as by `unmap_plain` and `clear_plain`: by recursion, on the calling thread.
    ///
    /// Not answered where the database is halted, `Halted`, and where memory or a worker is refused, `NoMemory`,
    /// `NoWorker`: then the database is halted.
    pub fn answer<W: Workers>(
        &mut self,
        alloc: Global,
        call: &Call,
        scratch: &mut Scratch,
        workers: &W,
        plain: bool,
    ) -> Result<Reply, DbError>
        requires within { IsWithinLimits self.old.limits call.now }
        ensures ok { IfOk result (IsAnswered self.old (call_of call.now) self.new) }
        ensures err { IfErr result (IsUnanswered self.old (call_of call.now) self.new) }
        ensures needs_no_worker { W.starts_none workers.now → IsErrOf result NoWorker → ⊥ }
        ensures plain { plain ≡ true → IsErrOf result NoWorker → IsSendOrAccess (call_of call.now) }
        ensures noted { OnOk result (NotesTell self.old.holdings self.new.holdings scratch.old.notes scratch.new.notes) }
    {
        match call {
            Call::Send {
                from,
                to,
                window,
                items,
            } => {
                let send = Sending {
                    from: *from,
                    to: *to,
                    window: *window,
                    items,
                };
                self.answer_send(alloc, &send, scratch, workers)
            }
            Call::Access { place, access } => {
                self.answer_access(alloc, (*place, *access), scratch, workers)
            }
            Call::Unmap {
                space,
                control,
                words,
                fpages,
            } => {
                let unmap = Unmap {
                    space: *space,
                    control: *control,
                    fpages,
                };
                self.answer_words(alloc, &unmap, words, scratch, workers, plain)
            }
            Call::Clear { space } => self.answer_clear(alloc, *space, scratch, workers, plain),
        }
    }

    /// Answers a send, as `answer` does.
    pub fn answer_send<W: Workers>(
        &mut self,
        alloc: Global,
        send: &Sending<'_>,
        scratch: &mut Scratch,
        workers: &W,
    ) -> Result<Reply, DbError>
        requires window { IsFpageOf self.old.limits.bits send.now.window }
        requires items { All (λ item. IsFpageOf self.old.limits.bits item.sent) send.now.items.now }
        ensures ok { IfOk result (IsAnswered self.old (send_of send.now) self.new) }
        ensures err { IfErr result (IsUnanswered self.old (send_of send.now) self.new) }
        ensures needs_no_worker { W.starts_none workers.now → IsErrOf result NoWorker → ⊥ }
        ensures noted { OnOk result (NotesTell self.old.holdings self.new.holdings scratch.old.notes scratch.new.notes) }
    {
        let asked = scratch.forget();
        match self.send_noted(alloc, send, &mut scratch.notes, workers) {
            Ok(counts) => Ok(Reply::Sent(counts)),
            Err(error) => scratch.refused(asked, error),
        }
    }

    /// Answers an access, as `answer` does.
    pub fn answer_access<W: Workers>(
        &mut self,
        alloc: Global,
        access: (Place, Access),
        scratch: &mut Scratch,
        workers: &W,
    ) -> Result<Reply, DbError>
        requires within { IsWithin self.old.limits access.0 }
        ensures ok { IfOk result (IsAnswered self.old (access_to access.0 access.1) self.new) }
        ensures err { IfErr result (IsUnanswered self.old (access_to access.0 access.1) self.new) }
        ensures needs_no_worker { W.starts_none workers.now → IsErrOf result NoWorker → ⊥ }
        ensures noted { OnOk result (NotesTell self.old.holdings self.new.holdings scratch.old.notes scratch.new.notes) }
    {
        scratch.notes.forget();
        if self.is_halted() {
            return Err(DbError::Halted);
        }
        // Its contract says that what is held is lawful.
        let _ = self.limits();
        let answers = self.access_all(alloc, &[access], workers)?;
        Ok(Reply::Accessed(answers[0]))
    }

    /// Answers a clear, as `answer` does.
    pub fn answer_clear<W: Workers>(
        &mut self,
        alloc: Global,
        space: u16,
        scratch: &mut Scratch,
        workers: &W,
        plain: bool,
    ) -> Result<Reply, DbError>
        ensures ok { IfOk result (IsAnswered self.old (clear space) self.new) }
        ensures err { IfErr result (IsUnanswered self.old (clear space) self.new) }
        ensures needs_no_worker { W.starts_none workers.now → IsErrOf result NoWorker → ⊥ }
        ensures plain { plain ≡ true → IsErrOf result NoWorker → ⊥ }
        ensures noted { OnOk result (NotesTell self.old.holdings self.new.holdings scratch.old.notes scratch.new.notes) }
    {
        let asked = scratch.forget();
        match self.clear_noted(alloc, space, &mut scratch.notes, workers, plain) {
            Ok(status) => Ok(Reply::Cleared(status)),
            Err(error) => scratch.refused(asked, error),
        }
    }
}

/// The reply to a call that is refused for what it asks; any other error is none.
pub(crate) fn refused_by(error: DbError) -> Result<Reply, DbError>
    ensures { result ≡ refused_by error }
{
    match error {
        DbError::NoSuchSpace => Ok(Reply::Refused(Refusal::NoSuchSpace)),
        DbError::SameSpace => Ok(Reply::Refused(Refusal::SameSpace)),
        DbError::NoWindow => Ok(Reply::Refused(Refusal::NoWindow)),
        DbError::BadLimits | DbError::NoMemory | DbError::NoWorker | DbError::Halted => Err(error),
    }
}
