//! What a record asks for.

ghost use Rattle.std.specs.Prelude.{◌≡◌, ◌%◌, length, true, Some, IfOk, IfSome, OnOk};
ghost use Rattle.std.specs.Option.{option_map};
ghost use Rattle.std.specs.List.{All, zip};
ghost use Rattle.fpage.specs.Fpage.{IsSpaceBits, IsFpageOf};
ghost use Rattle.model.specs.Definitions.Records.{header_fields, access_fields, access_request, word_fields, send_fields, read_items, send_request};
ghost use Rattle.model.specs.Definitions.Records.{unmap_fields, read_words, unmap_request, clear_fields, clear_request, request, are_limits};
ghost use Rattle.fields.specs.Meaning.{version_of};
ghost use Rattle.mapdb.specs.Held.{limits_of, IsWithin};
ghost use Rattle.trace.specs.Parts.{header_of, access_of, asked_of, send_of, unmap_of, ReadsFields, ReadsWords, Asks};
ghost use Rattle.trace.specs.Meaning.{request_of, IsWithinLimits};
ghost use Rattle.trace.specs.Unread.{IsAccessIn};

use crate::call::CallError;
use crate::records::{Fields, Record};
use fields::Version;
use fpage::{Access, Control, Fpage, Item, ItemKind};
use mapdb::{Call, Limits, Refusal};
use space::{NoMemory, Place};
use std::alloc::Global;
use std::mem;

/// The word of an fpage without pages.
const NILPAGE: u32 = 0;

/// The memory of the parts of calls, used again from call to call.
#[derive(Drop)]
pub struct Buffers {
    alloc: Global,
    words: Vec<u32>,
    items: Vec<Item>,
    fpages: Vec<Fpage>,
}

impl Buffers {
    /// Makes buffers that have no memory yet.
    pub fn new(alloc: Global) -> Self {
        Buffers {
            alloc,
            words: Vec::new(alloc),
            items: Vec::new(alloc),
            fpages: Vec::new(alloc),
        }
    }

    /// Keeps the memory of a call.
    pub fn keep(&mut self, call: Call) {
        match call {
            Call::Send {
                from: _,
                to: _,
                window: _,
                items,
            } => self.items = items,
            Call::Access {
                place: _,
                access: _,
            } => (),
            Call::Unmap {
                space: _,
                control: _,
                words,
                fpages,
            } => {
                self.words = words;
                self.fpages = fpages;
            }
            Call::Clear { space: _ } => (),
        }
    }
}

/// What the header of a trace names.
#[derive(Clone, Copy)]
pub struct Header {
    pub version: Version,
    pub limits: Limits,
}

/// Returns what a header names, if it has the form of one.
pub fn read_header(fields: &mut Fields<'_>) -> Option<Header>
    ensures { option_map header_of result ≡ header_fields fields.old }
{
    let name = fields.take()?;
    let version = fields.take()?;
    let spaces = fields.take()?;
    let bits = fields.take()?;
    let frames = fields.take()?;
    if fields.take().is_some() {
        return None;
    }
    let version = Version::of_field(version)?;
    let spaces = fields::number(spaces, 10, 7)?;
    let bits = fields::number(bits, 10, 7)?;
    let frames = fields::number(frames, 10, 7)?;
    if name != b"l4map".as_slice() {
        return None;
    }
    let limits = Limits {
        spaces,
        bits,
        frames,
    };
    Some(Header { version, limits })
}

/// The fields of an access record after its name.
#[derive(Clone, Copy)]
struct AccessFields {
    space: u16,
    address: u32,
    kind: Access,
}

fn access_words(fields: &mut Fields<'_>) -> Option<AccessFields>
    ensures { option_map access_of result ≡ access_fields fields.old }
{
    let space = fields.take()?;
    let address = fields.take()?;
    let kind = fields.take()?;
    if fields.take().is_some() {
        return None;
    }
    Some(AccessFields {
        space: fields::space(space)?,
        address: fields::word(address)?,
        kind: fields::kind(kind)?,
    })
}

/// Returns an access of a page, or the first refusal that fits: `BadRecord`, `NoSuchSpace`, `OutOfSpace`.
fn access(limits: &Limits, fields: &mut Fields<'_>) -> Result<(Place, Access), Refusal>
    requires { IsSpaceBits limits.now.bits }
    ensures request { asked_of result ≡ access_request (limits_of limits.now) (access_fields fields.old) }
    ensures within { IfOk result (λ access. IsWithin (limits_of limits.now) access.0) }
{
    let AccessFields {
        space,
        address,
        kind,
    } = access_words(fields).ok_or(Refusal::BadRecord)?;
    if u32::from(space) >= limits.spaces {
        return Err(Refusal::NoSuchSpace);
    }
    if u64::from(address) >= 1 << limits.bits {
        return Err(Refusal::OutOfSpace);
    }
    let place = Place {
        space,
        page: address / 4096,
    };
    Ok((place, kind))
}

/// Returns the access that fields mean, where they mean one.
pub fn access_only(limits: &Limits, fields: &mut Fields<'_>) -> Option<(Place, Access)>
    requires { IsSpaceBits limits.now.bits }
    ensures access { IsAccessIn (limits_of limits.now) fields.old result }
    ensures within { IfSome result (λ access. IsWithin (limits_of limits.now) access.0) }
{
    if fields.take()? != b"access".as_slice() {
        return None;
    }
    access(limits, fields).ok()
}

/// Puts the words of fields in place of those that were there; `BadRecord` if a field is no word.
fn read_words(fields: &mut Fields<'_>, words: &mut Vec<u32>) -> Result<(), CallError>
    ensures { ReadsFields (λ _. words.new.items) (word_fields fields.old) result }
{
    words.clear();
    while let Some(field) = fields.take() {
        let word = fields::word(field).ok_or(Refusal::BadRecord)?;
        words.push(word)?;
    }
    Ok(())
}

/// The first fields of a send record after its name.
#[derive(Clone, Copy)]
struct SendFields {
    from: u16,
    to: u16,
    window: u32,
}

/// Returns the fields of a send, and puts its words in place of those that were there.
fn send_words(fields: &mut Fields<'_>, words: &mut Vec<u32>) -> Result<SendFields, CallError>
    ensures fields { ReadsFields (send_of words.new.items) (send_fields fields.old) result }
    ensures pairs { OnOk result (length words.new.items % 2 ≡ 0) }
{
    let from = fields.take().ok_or(Refusal::BadRecord)?;
    let to = fields.take().ok_or(Refusal::BadRecord)?;
    let window = fields.take().ok_or(Refusal::BadRecord)?;
    let from = fields::space(from).ok_or(Refusal::BadRecord)?;
    let to = fields::space(to).ok_or(Refusal::BadRecord)?;
    let window = fields::word(window).ok_or(Refusal::BadRecord)?;
    read_words(fields, words)?;
    if words.len() % 2 != 0 || words.len() < 2 || words.len() > 62 {
        return Err(CallError::Refused(Refusal::BadRecord));
    }
    Ok(SendFields { from, to, window })
}

/// Puts the items of words, two by two, in place of those that were there; otherwise returns the first refusal.
fn read_items(words: &[u32], bits: u32, items: &mut Vec<Item>) -> Result<(), CallError>
    requires bits { IsSpaceBits bits }
    requires pairs { length words.now % 2 ≡ 0 }
    ensures items { ReadsWords (λ _. items.new.items) (read_items bits words.now) result }
    ensures within { OnOk result (All (λ item. IsFpageOf bits item.sent) items.new.items) }
{
    let none = Item {
        kind: ItemKind::Map,
        base: 0,
        sent: Fpage::read(NILPAGE, bits)?,
    };
    items.resize(words.len() / 2, none)?;
    fields::read_items(words, bits, items)?;
    Ok(())
}

/// Returns a send, or the first refusal that fits: `BadRecord`, then those of the window, then those of the items in order.
fn send(limits: &Limits, fields: &mut Fields<'_>, buffers: &mut Buffers) -> Result<Call, CallError>
    requires { IsSpaceBits limits.now.bits }
    ensures request { Asks (send_request (limits_of limits.now) (send_fields fields.old)) result }
    ensures within { IfOk result (IsWithinLimits (limits_of limits.now)) }
{
    let SendFields { from, to, window } = send_words(fields, &mut buffers.words)?;
    let window = Fpage::read(window, limits.bits)?;
    read_items(&buffers.words, limits.bits, &mut buffers.items)?;
    let items = mem::replace(&mut buffers.items, Vec::new(buffers.alloc));
    Ok(Call::Send {
        from,
        to,
        window,
        items,
    })
}

/// The first fields of an unmap record after its name.
#[derive(Clone, Copy)]
struct UnmapFields {
    space: u16,
    control: u32,
}

/// Returns the fields of an unmap, and puts its words in place of those that were there.
fn unmap_words(fields: &mut Fields<'_>, words: &mut Vec<u32>) -> Result<UnmapFields, CallError>
    ensures { ReadsFields (unmap_of words.new.items) (unmap_fields fields.old) result }
{
    let space = fields.take().ok_or(Refusal::BadRecord)?;
    let control = fields.take().ok_or(Refusal::BadRecord)?;
    let space = fields::space(space).ok_or(Refusal::BadRecord)?;
    let control = fields::word(control).ok_or(Refusal::BadRecord)?;
    read_words(fields, words)?;
    Ok(UnmapFields { space, control })
}

/// Puts the fpage of each word in place of those that were there; otherwise returns the first refusal.
fn read_fpages(words: &[u32], bits: u32, fpages: &mut Vec<Fpage>) -> Result<(), CallError>
    requires { IsSpaceBits bits }
    ensures fpages { ReadsWords (λ _. zip words.now fpages.new.items) (read_words bits words.now) result }
    ensures count { OnOk result (length fpages.new.items ≡ length words.now) }
    ensures within { OnOk result (All (IsFpageOf bits) fpages.new.items) }
{
    fpages.resize(words.len(), Fpage::read(NILPAGE, bits)?)?;
    fields::read_fpages(words, bits, fpages)?;
    Ok(())
}

/// Returns an unmap, or the first refusal that fits: `BadRecord`, then `BadControl`, then those of the words in order.
fn unmap(limits: &Limits, fields: &mut Fields<'_>, buffers: &mut Buffers) -> Result<Call, CallError>
    requires { IsSpaceBits limits.now.bits }
    ensures request { Asks (unmap_request (limits_of limits.now) (unmap_fields fields.old)) result }
    ensures within { IfOk result (IsWithinLimits (limits_of limits.now)) }
{
    let UnmapFields { space, control } = unmap_words(fields, &mut buffers.words)?;
    let control = Control::read(control, buffers.words.len())?;
    read_fpages(&buffers.words, limits.bits, &mut buffers.fpages)?;
    let words = mem::replace(&mut buffers.words, Vec::new(buffers.alloc));
    let fpages = mem::replace(&mut buffers.fpages, Vec::new(buffers.alloc));
    Ok(Call::Unmap {
        space,
        control,
        words,
        fpages,
    })
}

/// Returns the space of a clear, or `BadRecord`.
fn clear(fields: &mut Fields<'_>) -> Result<Call, CallError>
    ensures { Asks (clear_request (clear_fields fields.old)) result }
{
    let space = fields.take().ok_or(Refusal::BadRecord)?;
    if fields.take().is_some() {
        return Err(CallError::Refused(Refusal::BadRecord));
    }
    let space = fields::space(space).ok_or(Refusal::BadRecord)?;
    Ok(Call::Clear { space })
}

/// Returns the call that fields mean in a trace of a version, or the refusal that they and the limits decide.
pub fn request(
    version: Version,
    limits: &Limits,
    fields: &mut Fields<'_>,
    buffers: &mut Buffers,
) -> Result<Call, CallError>
    requires { IsSpaceBits limits.now.bits }
    ensures request { Asks (request (version_of version) (limits_of limits.now) fields.old) result }
    ensures within { IfOk result (IsWithinLimits (limits_of limits.now)) }
{
    let name = fields.take().ok_or(Refusal::BadRecord)?;
    if name == b"send".as_slice() {
        send(limits, fields, buffers)
    } else if name == b"access".as_slice() {
        let (place, access) = access(limits, fields)?;
        Ok(Call::Access { place, access })
    } else if name == b"unmap".as_slice() {
        unmap(limits, fields, buffers)
    } else if name == b"clear".as_slice() && version.has_clear() {
        clear(fields)
    } else {
        Err(CallError::Refused(Refusal::BadRecord))
    }
}

impl Record {
    /// Returns the call that the record means, or why it is refused, for a database with these limits.
    ///
    /// Refused, the first that fits: `BadRecord`; of a send what `Fpage::read` refuses of the window, and then what
    /// `Item::read` refuses of each item in order; of an access `NoSuchSpace`, and then `OutOfSpace`; of an unmap
    /// `BadControl`, and then what `Fpage::read` refuses of each word in order. The spaces of a send, of an unmap and of
    /// a clear, and a nil window, are for the database to refuse.
    pub fn call(&self, alloc: Global, limits: &Limits) -> Result<Result<Call, Refusal>, NoMemory>
        requires { are_limits (limits_of limits.now) ≡ true }
        ensures request { IfOk result (λ asked. request_of asked ≡ request self.now.version (limits_of limits.now) self.now.fields) }
        ensures within { IfOk result (λ asked. IfOk asked (IsWithinLimits (limits_of limits.now))) }
    {
        let mut buffers = Buffers::new(alloc);
        match request(self.version(), limits, &mut self.fields(), &mut buffers) {
            Ok(call) => Ok(Ok(call)),
            Err(CallError::Refused(refusal)) => Ok(Err(refusal)),
            Err(CallError::NoMemory) => Err(NoMemory),
        }
    }
}
