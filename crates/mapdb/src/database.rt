use crate::answer::{Scratch, refused_by};
use crate::call::{Sending, Unmap};
use crate::clear::clear_space;
use crate::error::DbError;
use crate::item::work_item;
use crate::item_pages::item_pages;
use crate::reply::{Reply, SendReply};
use crate::told::keep_told;
use crate::unmap::{unmap_word, unmap_words, unmap_words_watched};
use crew::{Alone, Crew, Gate, Observe, Workers};
use fpage::{Access, Control, Fpage, Item, Rights, with_status};
use holdings::{Holdings, Limits, Mapping, Mappings, Notes};
use space::{Entry, Place};
use std::alloc::{AllocError, Global};
use std::marker::Model;
use std::sync::Wait;
use std::thread::Threads;

/// A mapping database. A contract sees its limits, its holdings, the layout of its words, and whether it is halted.
///
/// A call that runs out of memory, or that cannot start a thread, halts the database: what it held is gone, and every later
/// call is refused.
#[derive(Drop)]
pub struct Database {
    limits: Limits,
    /// None once a call has halted the database.
    held: Option<Holdings>,
}

impl Model for Database {
    ghost use Rattle.holdings.specs.Meaning.{limits_of};
    ghost use Rattle.mapdb.specs.State.{State, state_of, AreLimitsOf};

    ghost Value = { State };

    ghost view = { λ d. state_of (limits_of d.limits) d.held };

    ghost invariant = { λ d. AreLimitsOf (limits_of d.limits) d.held };
}

impl Database {
    ghost use Rattle.std.specs.Prelude.{◌≡◌, ◌≤◌, ◌↔◌, ◌⊎◌, true, false, map, option_map};
    ghost use Rattle.std.specs.Prelude.{ℕ, ◌<◌, ◌+◌, List, length, take, IfOk, IfSome, OnOk, IfErr, OnErr, IsErrOf, MatchOption};
    ghost use Rattle.pieces.specs.declared.piece.Piece.{Piece};
    ghost use Rattle.holdings.specs.Observing.{IsPhaseOf};
    ghost use Rattle.std.specs.List.{All, zip};
    ghost use Rattle.model.specs.Definitions.Holdings.{at, only, origin_at};
    ghost use Rattle.model.specs.Definitions.Derived.{is_below};
    ghost use Rattle.model.specs.Definitions.Records.{are_limits};
    ghost use Rattle.model.specs.Definitions.Answers.{send_answer, in_space, unmap_answer, clear_answer};
    ghost use Rattle.mapdb.specs.Answered.{IsAnswered, IsUnanswered};
    ghost use Rattle.mapdb.specs.Calls.{AreWordsWithin, send_of, unmap_of};
    ghost use Rattle.mapdb.specs.Noted.{NotesChange, NotesTell};
    ghost use Rattle.model.specs.Definitions.Calls.{send, clear};
    ghost use Rattle.model.specs.Definitions.Recursion.{recur};
    ghost use Rattle.fpage.specs.Fpage.{IsFpageOf};
    ghost use Rattle.fpage.specs.Rights.{all_rights};
    ghost use Rattle.model.specs.Definitions.Lawful.{is_lawful};
    ghost use Rattle.holdings.specs.Meaning.{limits_of};
    ghost use Rattle.holdings.specs.Layout.{IsLayoutOf, OnlyGrows, index_in};
    ghost use Rattle.holdings.specs.Below.{IsNoneBelow, IsNextBelow};
    ghost use Rattle.holdings.specs.Places.{IsWithin, listing};
    ghost use Rattle.holdings.specs.Mappings.{mapped_of, AreAbsentFrom, IsNextHeldOf};
    ghost use Rattle.space.specs.Directory.{pages_of};
    ghost use Rattle.holdings.specs.Contents.{entry_of};
    ghost use Rattle.mapdb.specs.Meaning.{counts_of};
    ghost use Rattle.mapdb.specs.State.{new_state, halted, laid_out, left_with, unless_halted, refusal, unmap_refusal, IsRefused};
    ghost use Rattle.holdings.specs.Contents.{touched_all, access_answers};
    ghost use Rattle.mapdb.specs.State.{unmap_status, unmap_left, plain_status, plain_left};
    ghost use Rattle.mapdb.specs.declared.error.DbError.TheVariants.{BadLimits, NoSuchSpace, NoMemory, NoWorker, Halted};

    /// The database at the start: page `i` of space 0 holds frame `i` with all rights, for each frame.
    ///
    /// Refused first where the limits are not served, `BadLimits`, and then where memory is, `NoMemory`.
    pub fn new(alloc: Global, spaces: u32, bits: u32, frames: u32) -> Result<Self, DbError>
        ensures bad_limits { IsErrOf result BadLimits
            ↔ (are_limits (record { spaces = spaces; bits = bits; frames = frames }) ≡ false) }
        ensures errors { IfErr result (λ e. (e ≡ BadLimits) ⊎ (e ≡ NoMemory)) }
        ensures ok { IfOk result (λ database.
            database ≡ laid_out (new_state (record { spaces = spaces; bits = bits; frames = frames })) database.layout) }
    {
        let limits = Limits {
            spaces,
            bits,
            frames,
        };
        if !limits.are_served() {
            return Err(DbError::BadLimits);
        }
        let held = Holdings::new(alloc, &limits)?;
        Ok(Database {
            limits,
            held: Some(held),
        })
    }

    /// Takes memory for the words of so many shards of 64 pages more at once, if it can be had: then none of these is copied
    /// as pages come to be held. Nothing else changes.
    pub fn reserve(&mut self, shards: usize)
        ensures { self.new ≡ self.old }
    {
        if let Some(held) = self.held.take() {
            self.held = Some(held.with_room(shards));
        }
    }

    /// The limits that the database was made with.
    pub fn limits(&self) -> Limits
        ensures limits { limits_of result ≡ self.now.limits }
        ensures served { self.now.is_halted ≡ false → are_limits self.now.limits ≡ true }
        ensures held { self.now.holdings ≡ listing self.now.limits (at self.now.holdings) }
        ensures lawful { self.now.is_halted ≡ false → is_lawful self.now.holdings ≡ true }
        ensures layout { IsLayoutOf self.now.holdings self.now.layout }
    {
        match &self.held {
            Some(held) => held.limits(),
            None => self.limits,
        }
    }

    /// Whether a call ran out of memory, or could not start a thread: every later call is then refused.
    pub fn is_halted(&self) -> bool
        ensures { result ≡ self.now.is_halted }
    {
        self.held.is_none()
    }

    /// Frame, rights and status of what a page holds.
    ///
    /// Refused where the database is halted, `Halted`. Takes no memory.
    pub fn entry(&self, place: Place) -> Result<Option<Entry>, DbError>
        requires { IsWithin self.now.limits place }
        ensures { result ≡ unless_halted self.now (option_map entry_of (at self.now.holdings place)) }
    {
        let Some(held) = &self.held else {
            return Err(DbError::Halted);
        };
        Ok(held.entry(place))
    }

    /// The page from which a page came; none for a root, and where nothing is held.
    ///
    /// Refused where the database is halted, `Halted`. Takes no memory.
    pub fn origin(&self, place: Place) -> Result<Option<Place>, DbError>
        requires { IsWithin self.now.limits place }
        ensures { result ≡ unless_halted self.now (origin_at self.now.holdings place) }
    {
        let Some(held) = &self.held else {
            return Err(DbError::Halted);
        };
        Ok(held.origin(place))
    }

    /// Whether a page derives from another, at any distance, or is that page.
    ///
    /// Refused where the database is halted, `Halted`. Takes no memory.
    pub fn is_below(&self, place: Place, above: Place) -> Result<bool, DbError>
        requires place { IsWithin self.now.limits place }
        requires above { IsWithin self.now.limits above }
        ensures { result ≡ unless_halted self.now (is_below self.now.holdings (only above) place) }
    {
        let Some(held) = &self.held else {
            return Err(DbError::Halted);
        };
        Ok(held.is_below(place, above))
    }

    /// The first page at or behind a place, by space and page, that is held and derives from a page, at any distance, or is
    /// that page. It looks at all that derives from the page.
    ///
    /// Refused where the database is halted, `Halted`. Takes no memory.
    pub fn next_below(&self, above: Place, from: Place) -> Result<Option<Place>, DbError>
        requires { IsWithin self.now.limits above }
        ensures halted { IsErrOf result Halted ↔ (self.now.is_halted ≡ true) }
        ensures errors { IfErr result (λ e. e ≡ Halted) }
        ensures next { IfOk result (λ found. MatchOption found
            (IsNoneBelow self.now.holdings above from)
            (IsNextBelow self.now.holdings above from)) }
        ensures within { IfOk result (λ found. IfSome found (IsWithin self.now.limits)) }
    {
        let Some(held) = &self.held else {
            return Err(DbError::Halted);
        };
        Ok(held.next_below(above, from))
    }

    /// Whether so many calls of `next_below` take less time than a look at all that is held. No clause speaks of it.
    pub fn is_next_below_fast(&self, above: Place, calls: usize) -> bool
        requires { IsWithin self.now.limits above }
    {
        match &self.held {
            Some(held) => held.is_next_below_fast(above, calls),
            None => true,
        }
    }

    /// The first page of a space, from one on, that holds something; none where no page from there on does. Its time
    /// goes with what is held or was, and not with the pages in between.
    ///
    /// Refused where the database is halted, `Halted`. Takes no memory.
    pub fn next_held(&self, space: u16, page: u32) -> Result<Option<Place>, DbError>
        requires { space < self.now.limits.spaces }
        ensures halted { IsErrOf result Halted ↔ (self.now.is_halted ≡ true) }
        ensures errors { IfErr result (λ e. e ≡ Halted) }
        ensures next { IfOk result (λ found. MatchOption found
            (AreAbsentFrom self.now.holdings space page (pages_of self.now.limits.bits))
            (IsNextHeldOf self.now.holdings space page (pages_of self.now.limits.bits))) }
    {
        let Some(held) = &self.held else {
            return Err(DbError::Halted);
        };
        Ok(held.next_held(space, page))
    }

    /// Which word is that of a page in each `Open` that a watched unmap makes, from now until the next send; none exactly
    /// where no word stands for the page there. A page that is held has a word. A send may make words, and moves none.
    ///
    /// Refused where the database is halted, `Halted`. Takes no memory.
    pub fn index(&self, place: Place) -> Result<Option<usize>, DbError>
        requires { IsWithin self.now.limits place }
        ensures { result ≡ unless_halted self.now (index_in self.now.layout place) }
    {
        let Some(held) = &self.held else {
            return Err(DbError::Halted);
        };
        Ok(held.index(place))
    }

    /// A reader of every mapping, by rising place. To make it takes time by what is held, and not by how many pages there are.
    ///
    /// Refused where the database is halted, `Halted`, and where memory is, `NoMemory`; the database is not halted by it.
    pub fn by_place(&self, alloc: Global) -> Result<Mappings<'_>, DbError>
        ensures halted { IsErrOf result Halted ↔ (self.now.is_halted ≡ true) }
        ensures errors { IfErr result (λ e. (e ≡ Halted) ⊎ (e ≡ NoMemory)) }
        ensures limits { IfOk result (λ mappings. mappings.limits ≡ self.now.limits) }
        ensures holdings { IfOk result (λ mappings. mappings.holdings ≡ self.now.holdings) }
    {
        let Some(held) = &self.held else {
            return Err(DbError::Halted);
        };
        let mappings = held.by_place(alloc)?;
        Ok(mappings)
    }

    /// Every mapping, by rising place.
    ///
    /// Refused where the database is halted, `Halted`, and where memory is, `NoMemory`; nothing changes, and the database
    /// is not halted by it.
    pub fn mappings(&self, alloc: Global) -> Result<Vec<Mapping>, DbError>
        ensures halted { IsErrOf result Halted ↔ (self.now.is_halted ≡ true) }
        ensures errors { IfErr result (λ e. (e ≡ Halted) ⊎ (e ≡ NoMemory)) }
        ensures mappings { IfOk result (λ mappings. map mapped_of mappings.items ≡ self.now.holdings) }
    {
        let Some(held) = &self.held else {
            return Err(DbError::Halted);
        };
        let mappings = held.mappings(alloc)?;
        Ok(mappings)
    }

    /// Makes accesses one after another, and says of each whether it was made; otherwise it was a fault.
    ///
    /// Refused where the database is halted, `Halted`, and where memory or a worker is, `NoMemory`, `NoWorker`: then the
    /// database is halted.
    pub fn access_all<W: Workers>(
        &mut self,
        alloc: Global,
        accesses: &[(Place, Access)],
        workers: &W,
    ) -> Result<Vec<bool>, DbError>
        requires within { All (λ access. IsWithin self.old.limits access.0) accesses.now }
        ensures halted { IsErrOf result Halted ↔ (self.old.is_halted ≡ true) }
        ensures errors { IfErr result (λ e. (e ≡ Halted) ⊎ (e ≡ NoMemory) ⊎ (e ≡ NoWorker)) }
        ensures err { OnErr result (self.new ≡ halted self.old) }
        ensures needs_no_worker { W.starts_none workers.now → IsErrOf result NoWorker → ⊥ }
        ensures answers { IfOk result (λ answers.
            answers.items ≡ access_answers self.old.holdings accesses.now) }
        ensures left { OnOk result (self.new ≡ left_with self.old (touched_all self.old.holdings accesses.now)) }
    {
        let Some(held) = self.held.take() else {
            return Err(DbError::Halted);
        };
        let (held, answers) = held.access_all(alloc, accesses, workers)?;
        self.held = Some(held);
        Ok(answers)
    }

    /// Maps or grants the pages of items, one item after another, to pages of the receiver's window (L4 X.2, MapItem,
    /// GrantItem). Of each item the outcome of every page is decided first; then the targets that it replaces are revoked,
    /// with all that derives from them; then pages are mapped, or moved (profile).
    ///
    /// Refused, the first that fits: `Halted`; `NoSuchSpace`; `SameSpace`; `NoWindow`, for a nil window; and where memory
    /// or a worker is, `NoMemory`, `NoWorker`: then the database is halted.
    pub fn send<W: Workers>(
        &mut self,
        alloc: Global,
        from: u16,
        to: u16,
        window: &Fpage,
        items: &[Item],
        workers: &W,
    ) -> Result<SendReply, DbError>
        requires window { IsFpageOf self.old.limits.bits window.now }
        requires items { All (λ item. IsFpageOf self.old.limits.bits item.sent) items.now }
        ensures refused { IsRefused (refusal self.old (send from to window.now items.now)) self.old self.new result }
        ensures no_memory { IsErrOf result NoMemory → self.new ≡ halted self.old }
        ensures no_worker { IsErrOf result NoWorker → self.new ≡ halted self.old }
        ensures needs_no_worker { W.starts_none workers.now → IsErrOf result NoWorker → ⊥ }
        ensures limits { self.new.limits ≡ self.old.limits }
        ensures counts { IfOk result (λ reply.
            counts_of reply ≡ (send_answer from to window.now items.now self.old.holdings).counts) }
        ensures left { OnOk result (self.new ≡ laid_out
            (left_with self.old (send_answer from to window.now items.now self.old.holdings).left) self.new.layout) }
        ensures grows { OnOk result (OnlyGrows self.old.layout self.new.layout) }
    {
        let send = Sending {
            from,
            to,
            window: *window,
            items,
        };
        self.send_noted(alloc, &send, &mut Notes::none(alloc), workers)
    }

    /// The same as `send`. Notes the pages that it changes, if notes are asked for.
    ///
    /// Refused as `send` is.
    pub(crate) fn send_noted<W: Workers>(
        &mut self,
        alloc: Global,
        send: &Sending<'_>,
        notes: &mut Notes,
        workers: &W,
    ) -> Result<SendReply, DbError>
        requires window { IsFpageOf self.old.limits.bits send.now.window }
        requires items { All (λ item. IsFpageOf self.old.limits.bits item.sent) send.now.items.now }
        ensures refused { IsRefused (refusal self.old (send_of send.now)) self.old self.new result }
        ensures no_memory { IsErrOf result NoMemory → self.new ≡ halted self.old }
        ensures no_worker { IsErrOf result NoWorker → self.new ≡ halted self.old }
        ensures needs_no_worker { W.starts_none workers.now → IsErrOf result NoWorker → ⊥ }
        ensures limits { self.new.limits ≡ self.old.limits }
        ensures counts { IfOk result (λ reply.
            counts_of reply ≡ (send_answer send.now.from send.now.to send.now.window send.now.items.now self.old.holdings).counts) }
        ensures left { OnOk result (self.new ≡ laid_out
            (left_with self.old (send_answer send.now.from send.now.to send.now.window send.now.items.now self.old.holdings).left) self.new.layout) }
        ensures grows { OnOk result (OnlyGrows self.old.layout self.new.layout) }
        ensures noted { OnOk result (NotesChange self.old.holdings self.new.holdings notes.old notes.new) }
    {
        if self.held.is_none() {
            return Err(DbError::Halted);
        }
        let spaces = self.limits.spaces;
        if u32::from(send.from) >= spaces || u32::from(send.to) >= spaces {
            return Err(DbError::NoSuchSpace);
        }
        if send.from == send.to {
            return Err(DbError::SameSpace);
        }
        if send.window.is_nil() {
            return Err(DbError::NoWindow);
        }
        let mut held = self.held.take().unwrap();
        let mut reply = SendReply::none();
        for item in send.items {
            let pages = item_pages(send, item);
            let (left, worked) = work_item(alloc, held, &pages, notes, workers)?;
            held = left;
            reply = reply.plus(worked);
        }
        keep_told(alloc, &held, notes)?;
        self.held = Some(held);
        Ok(reply)
    }

    /// Takes rights from the pages of a space that each fpage names, if the control word says so, and from all that derives
    /// from them: the rights in the fpage's word, word after word. Gives back, for each word, the status of its pages and
    /// of all that derives from them; theirs is cleared, and what it was is added to that of the page from which they
    /// come. A page that has no rights left is no longer held (L4 X.2, Unmap).
    ///
    /// Refused, the first that fits: `Halted`; `NoSuchSpace`, where nothing changes; and where memory or a worker is,
    /// `NoMemory`, `NoWorker`: then the database is halted.
    pub fn unmap<W: Workers>(
        &mut self,
        alloc: Global,
        space: u16,
        control: Control,
        fpages: &[Fpage],
        workers: &W,
    ) -> Result<Vec<Rights>, DbError>
        requires bits { All (IsFpageOf self.old.limits.bits) fpages.now }
        ensures refused { IsRefused (unmap_refusal self.old space) self.old self.new result }
        ensures no_memory { IsErrOf result NoMemory → self.new ≡ halted self.old }
        ensures no_worker { IsErrOf result NoWorker → self.new ≡ halted self.old }
        ensures needs_no_worker { W.starts_none workers.now → IsErrOf result NoWorker → ⊥ }
        ensures status { IfOk result (λ status.
            status.items ≡ unmap_status space control.flush fpages.now self.old.holdings) }
        ensures left { OnOk result (self.new ≡
            left_with self.old (unmap_left space control.flush fpages.now self.old.holdings)) }
    {
        let unmap = Unmap {
            space,
            control,
            fpages,
        };
        self.unmap_all(alloc, &unmap, workers, false)
    }

    /// Works an unmap as `unmap` does, or with `plain` as `unmap_plain` does.
    ///
    /// Refused as these are.
    fn unmap_all<W: Workers>(
        &mut self,
        alloc: Global,
        unmap: &Unmap<'_>,
        workers: &W,
        plain: bool,
    ) -> Result<Vec<Rights>, DbError>
        requires bits { All (IsFpageOf self.old.limits.bits) unmap.now.fpages.now }
        ensures refused { IsRefused (unmap_refusal self.old unmap.now.space) self.old self.new result }
        ensures no_memory { IsErrOf result NoMemory → self.new ≡ halted self.old }
        ensures no_worker { IsErrOf result NoWorker → self.new ≡ halted self.old }
        ensures needs_no_worker { W.starts_none workers.now → IsErrOf result NoWorker → ⊥ }
        ensures plain { plain ≡ true → IsErrOf result NoWorker → ⊥ }
        ensures status { IfOk result (λ status.
            status.items ≡ unmap_status unmap.now.space unmap.now.control.flush unmap.now.fpages.now self.old.holdings) }
        ensures left { OnOk result (self.new ≡
            left_with self.old (unmap_left unmap.now.space unmap.now.control.flush unmap.now.fpages.now self.old.holdings)) }
        ensures lawful { OnOk result (is_lawful self.old.holdings ≡ true) }
    {
        let held = self.take_held(unmap.space)?;
        let mut notes = Notes::none(alloc);
        let (held, status) = unmap_words(alloc, held, unmap, &mut notes, workers, plain)?;
        self.held = Some(held);
        Ok(status)
    }

    /// Takes out what is held, for a call about a space: until it is put back, the database is halted.
    ///
    /// Refused, the first that fits: `Halted`; `NoSuchSpace`. Then nothing changes.
    fn take_held(&mut self, space: u16) -> Result<Holdings, DbError>
        ensures refused { IsRefused (unmap_refusal self.old space) self.old self.new result }
        ensures errors { IfErr result (λ e. (e ≡ Halted) ⊎ (e ≡ NoSuchSpace)) }
        ensures running { OnOk result (self.old.is_halted ≡ false) }
        ensures within { OnOk result (space < self.old.limits.spaces) }
        ensures held { IfOk result (λ held. held.holdings ≡ self.old.holdings) }
        ensures limits { IfOk result (λ held. held.limits ≡ self.old.limits) }
        ensures layout { IfOk result (λ held. held.layout ≡ self.old.layout) }
        ensures halted { OnOk result (self.new ≡ halted self.old) }
        ensures lawful { OnOk result (is_lawful self.old.holdings ≡ true) }
    {
        if self.held.is_none() {
            return Err(DbError::Halted);
        }
        if u32::from(space) >= self.limits().spaces {
            return Err(DbError::NoSuchSpace);
        }
        Ok(self.held.take().unwrap())
    }

    /// Answers an unmap, as `answer` does.
    pub fn answer_words<W: Workers>(
        &mut self,
        alloc: Global,
        unmap: &Unmap<'_>,
        words: &[u32],
        scratch: &mut Scratch,
        workers: &W,
        plain: bool,
    ) -> Result<Reply, DbError>
        requires within { AreWordsWithin self.old.limits words.now unmap.now.fpages.now }
        ensures ok { IfOk result (IsAnswered self.old (unmap_of unmap.now words.now) self.new) }
        ensures err { IfErr result (IsUnanswered self.old (unmap_of unmap.now words.now) self.new) }
        ensures needs_no_worker { W.starts_none workers.now → IsErrOf result NoWorker → ⊥ }
        ensures plain { plain ≡ true → IsErrOf result NoWorker → ⊥ }
        ensures noted { OnOk result (NotesTell self.old.holdings self.new.holdings scratch.old.notes scratch.new.notes) }
    {
        scratch.notes.forget();
        let mut held = match self.take_held(unmap.space) {
            Ok(held) => held,
            Err(error) => return refused_by(error),
        };
        scratch.words.clear();
        scratch.words.reserve(words.len())?;
        for i in 0..unmap.fpages.len() {
            let word = unmap.word(unmap.fpages[i]);
            let (left, status) = unmap_word(
                alloc,
                held,
                &word,
                &mut scratch.notes,
                workers,
                plain,
            )?;
            held = left;
            scratch
                .words
                .push(with_status(words[i], status))
                .map_err(AllocError::from)?;
        }
        keep_told(alloc, &held, &mut scratch.notes)?;
        self.held = Some(held);
        Ok(scratch.reply(alloc))
    }

    /// The same as `unmap`, by a crew, while an observer looks at the entries: once for each word of which a page is
    /// held, on a thread of its own. What it may require says of each page what its word is, by the index that `index`
    /// tells, before this word of the unmap and after it.
    ///
    /// Refused as `unmap` is; `NoWorker` also where a thread of the observer could not be started.
    pub fn unmap_watched<R: Threads + Wait, G: Gate, O: Observe>(
        &mut self,
        alloc: Global,
        unmap: &Unmap<'_>,
        crew: &Crew<'_, R, G>,
        observer: &O,
    ) -> Result<Vec<Rights>, DbError>
        requires bits { All (IsFpageOf self.old.limits.bits) unmap.now.fpages.now }
        requires told { (i : ℕ) (words : List ℕ) (pieces : List Piece) → i < length unmap.now.fpages.now
            → IsPhaseOf self.old.layout (unmap_left unmap.now.space unmap.now.control.flush (take i unmap.now.fpages.now) self.old.holdings)
            (unmap_left unmap.now.space unmap.now.control.flush (take (i + 1) unmap.now.fpages.now) self.old.holdings) words pieces
            → O.told observer.now words pieces }
        ensures refused { IsRefused (unmap_refusal self.old unmap.now.space) self.old self.new result }
        ensures no_memory { IsErrOf result NoMemory → self.new ≡ halted self.old }
        ensures no_worker { IsErrOf result NoWorker → self.new ≡ halted self.old }
        ensures status { IfOk result (λ status.
            status.items ≡ unmap_status unmap.now.space unmap.now.control.flush unmap.now.fpages.now self.old.holdings) }
        ensures left { OnOk result (self.new ≡
            left_with self.old (unmap_left unmap.now.space unmap.now.control.flush unmap.now.fpages.now self.old.holdings)) }
    {
        let held = self.take_held(unmap.space)?;
        let (held, status) = unmap_words_watched(alloc, held, unmap, crew, observer)?;
        self.held = Some(held);
        Ok(status)
    }

    /// The same as `unmap`, by recursion on the calling thread: page by page of those that an fpage names and that are still
    /// held, first what derives from the page, and then the page itself. It takes longer.
    ///
    /// Refused as `unmap` is, but that it needs no worker.
    pub fn unmap_plain(
        &mut self,
        alloc: Global,
        space: u16,
        control: Control,
        fpages: &[Fpage],
    ) -> Result<Vec<Rights>, DbError>
        requires bits { All (IsFpageOf self.old.limits.bits) fpages.now }
        ensures refused { IsRefused (unmap_refusal self.old space) self.old self.new result }
        ensures needs_no_worker { IfErr result (λ e. e ≡ NoWorker → ⊥) }
        ensures no_memory { IsErrOf result NoMemory → self.new ≡ halted self.old }
        ensures status { IfOk result (λ status.
            status.items ≡ unmap_status space control.flush fpages.now self.old.holdings) }
        ensures left { OnOk result (self.new ≡
            left_with self.old (unmap_left space control.flush fpages.now self.old.holdings)) }
        ensures recursion_status { IfOk result (λ status.
            status.items ≡ plain_status space control.flush fpages.now self.old.holdings) }
        ensures recursion_left { OnOk result (self.new ≡
            left_with self.old (plain_left space control.flush fpages.now self.old.holdings)) }
    {
        let unmap = Unmap {
            space,
            control,
            fpages,
        };
        self.unmap_all(alloc, &unmap, &Alone, true)
    }

    /// Takes all pages from a space, as where it is deleted, and with each page all that derives from it. Gives back
    /// the status of all of them; what it was is added to that of the page from which they come (profile).
    ///
    /// Its time goes with what the space holds, or held before, and what derives from that, and not with how many pages
    /// the space has.
    ///
    /// Refused, the first that fits: `Halted`; `NoSuchSpace`, where nothing changes; and where memory or a worker is,
    /// `NoMemory`, `NoWorker`: then the database is halted.
    pub fn clear<W: Workers>(
        &mut self,
        alloc: Global,
        space: u16,
        workers: &W,
    ) -> Result<Rights, DbError>
        ensures refused { IsRefused (refusal self.old (clear space)) self.old self.new result }
        ensures no_memory { IsErrOf result NoMemory → self.new ≡ halted self.old }
        ensures no_worker { IsErrOf result NoWorker → self.new ≡ halted self.old }
        ensures needs_no_worker { W.starts_none workers.now → IsErrOf result NoWorker → ⊥ }
        ensures status { IfOk result (λ status. status ≡ (clear_answer space self.old.holdings).status) }
        ensures left { OnOk result (self.new ≡ left_with self.old (clear_answer space self.old.holdings).left) }
    {
        self.clear_noted(alloc, space, &mut Notes::none(alloc), workers, false)
    }

    /// Works a clear as `clear` does, or with `plain` as `clear_plain` does. Notes the pages that it changes, if notes are
    /// asked for.
    ///
    /// Refused as these are.
    pub(crate) fn clear_noted<W: Workers>(
        &mut self,
        alloc: Global,
        space: u16,
        notes: &mut Notes,
        workers: &W,
        plain: bool,
    ) -> Result<Rights, DbError>
        ensures refused { IsRefused (refusal self.old (clear space)) self.old self.new result }
        ensures no_memory { IsErrOf result NoMemory → self.new ≡ halted self.old }
        ensures no_worker { IsErrOf result NoWorker → self.new ≡ halted self.old }
        ensures needs_no_worker { W.starts_none workers.now → IsErrOf result NoWorker → ⊥ }
        ensures plain { plain ≡ true → IsErrOf result NoWorker → ⊥ }
        ensures status { IfOk result (λ status. status ≡ (clear_answer space self.old.holdings).status) }
        ensures left { OnOk result (self.new ≡ left_with self.old (clear_answer space self.old.holdings).left) }
        ensures noted { OnOk result (NotesChange self.old.holdings self.new.holdings notes.old notes.new) }
        ensures lawful { OnOk result (is_lawful self.old.holdings ≡ true) }
    {
        let held = self.take_held(space)?;
        let (held, status) = clear_space(alloc, held, space, notes, workers, plain)?;
        keep_told(alloc, &held, notes)?;
        self.held = Some(held);
        Ok(status)
    }

    /// The same as `clear`, by recursion on the calling thread: what `unmap_plain` does with flush, where its one word
    /// names the complete space with all rights. It takes longer.
    ///
    /// Refused as `clear` is, but that it needs no worker.
    pub fn clear_plain(&mut self, alloc: Global, space: u16) -> Result<Rights, DbError>
        ensures refused { IsRefused (refusal self.old (clear space)) self.old self.new result }
        ensures needs_no_worker { IfErr result (λ e. e ≡ NoWorker → ⊥) }
        ensures no_memory { IsErrOf result NoMemory → self.new ≡ halted self.old }
        ensures status { IfOk result (λ status. status ≡ (clear_answer space self.old.holdings).status) }
        ensures left { OnOk result (self.new ≡ left_with self.old (clear_answer space self.old.holdings).left) }
        ensures recursion_status { IfOk result (λ status.
            status ≡ (recur self.old.holdings (in_space space) all_rights true).word) }
        ensures recursion_left { OnOk result (self.new ≡
            left_with self.old (recur self.old.holdings (in_space space) all_rights true).left) }
    {
        self.clear_noted(alloc, space, &mut Notes::none(alloc), &Alone, true)
    }
}
