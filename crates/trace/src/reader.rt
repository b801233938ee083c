//! A trace in memory, read record by record.

ghost use Rattle.std.specs.Prelude.{◌≡◌, ◌==◌, ◌<◌, ◌∷◌, [], true, Some, length, IfOk, IfErr, OnOk, OnErr, IfSome, MatchOption};
ghost use Rattle.model.specs.Definitions.Records.{are_limits};
ghost use Rattle.fields.specs.Meaning.{version_of};
ghost use Rattle.mapdb.specs.Held.{limits_of, IsWithin};
ghost use Rattle.trace.specs.Meaning.{request_of, IsWithinLimits};
ghost use Rattle.trace.specs.Unread.{past, IsOpened, IsFaultIn, first_request, access_in};

use crate::bytes::Bytes;
use crate::call::CallError;
use crate::read::TraceError;
use crate::records::{Fields, Record, next_row, rows};
use crate::request::{Buffers, Header, access_only, read_header, request};
use csv::{ByteRecord, Reader};
use fields::Version;
use fpage::Access;
use mapdb::{Call, Limits, Refusal};
use space::{NoMemory, Place};
use std::alloc::Global;
use std::marker::Model;

/// A trace in memory, whose records are read one after another and not kept; nor are its bytes, once they were read. A contract sees the version and the limits
/// that its header names, the number of the record that is next, 1 for the first behind the header, and the records that
/// are left.
///
/// Once a read ran out of memory, no record is left.
#[derive(Drop)]
pub struct TraceReader {
    version: Version,
    limits: Limits,
    rows: Box<Reader<Bytes>>,
    /// The record that is next, if there is one.
    row: ByteRecord,
    has_row: bool,
    number: u64,
    buffers: Buffers,
}

impl Model for TraceReader {
    ghost use Rattle.trace.specs.Unread.{Unread};

    ghost Value = { Unread };

    ghost use Rattle.std.specs.Prelude.{◌≡◌, true};
    ghost use Rattle.csv.specs.Records.{fields_of};
    ghost use Rattle.fields.specs.Meaning.{version_of};
    ghost use Rattle.mapdb.specs.Held.{limits_of};
    ghost use Rattle.trace.specs.Rows.{IsReading, with_row};

    ghost view = { λ r. record {
      version = version_of r.version;
      limits = limits_of r.limits;
      number = r.number;
      records = with_row r.has_row (fields_of r.row) r.rows.value;
    } };

    ghost invariant = { λ r. r.has_row ≡ true → IsReading r.rows.value };
}

impl TraceReader {
    /// Reads the header of these bytes, as `csv` reads a record: no header row, any number of fields, nothing trimmed.
    ///
    /// The errors are `NoMemory`, if memory runs out, and `BadHeader`, if there is no first record or it does not have a
    /// header's form. Whether the limits are served is for the database to say.
    // (It is not compiled into its caller, whose frame would hold the reader's buffer, on its way to the heap, as long as it runs.)
    #[inline(never)]
    pub fn new(alloc: Global, bytes: Bytes) -> Result<Self, TraceError>
        ensures ok { IfOk result (IsOpened bytes) }
        ensures err { IfErr result (IsFaultIn bytes) }
    {
        // The reader holds its buffer in place, 16 KiB of it, which is too much to keep on a stack.
        let Ok(mut rows) = Box::new(alloc, rows(alloc, bytes)) else {
            return Err(TraceError::NoMemory);
        };
        let mut row = ByteRecord::new(alloc);
        if !next_row(&mut rows, &mut row)? {
            return Err(TraceError::BadHeader);
        }
        let Some(Header { version, limits }) = read_header(&mut Fields::of_row(&row)) else {
            return Err(TraceError::BadHeader);
        };
        let has_row = next_row(&mut rows, &mut row)?;
        Ok(TraceReader {
            version,
            limits,
            rows,
            row,
            has_row,
            number: 1,
            buffers: Buffers::new(alloc),
        })
    }

    /// The same of a slice, whose bytes are copied.
    pub fn of_slice(alloc: Global, bytes: &[u8]) -> Result<Self, TraceError>
        ensures ok { IfOk result (IsOpened bytes.now) }
        ensures err { IfErr result (IsFaultIn bytes.now) }
    {
        match Bytes::from_slice(alloc, bytes) {
            Ok(copied) => TraceReader::new(alloc, copied),
            Err(_) => Err(TraceError::NoMemory),
        }
    }

    /// Returns the version that the header names.
    pub fn version(&self) -> Version
        ensures { version_of result ≡ self.now.version }
    {
        self.version
    }

    /// Returns the limits that the header names, whether or not a database serves them.
    pub fn limits(&self) -> Limits
        ensures { limits_of result ≡ self.now.limits }
    {
        self.limits
    }

    /// Returns the number of the record that is next; at the end, one more than that of the last.
    pub fn number(&self) -> u64
        ensures { result ≡ self.now.number }
    {
        self.number
    }

    /// Whether no record is left.
    pub fn is_at_end(&self) -> bool
        ensures { result ≡ (length self.now.records == 0) }
    {
        !self.has_row
    }

    /// Takes the next record; none if no record is left.
    pub fn next_record(&mut self) -> Result<Option<Record>, NoMemory>
        ensures next { IfOk result (λ next. MatchOption next (self.old.records ≡ [])
            (λ taken. self.old.records ≡ taken.fields ∷ self.new.records)) }
        ensures version { IfOk result (λ next. IfSome next (λ taken. taken.version ≡ self.old.version)) }
        ensures taken { IfOk result (λ next. MatchOption next (self.new ≡ self.old) (λ _. self.new ≡ past 1 self.old)) }
        ensures err { OnErr result (self.new.records ≡ []) }
    {
        if !self.has_row {
            return Ok(None);
        }
        let Ok(record) = Record::of_row(self.version, &self.row) else {
            return Err(self.stop());
        };
        self.advance()?;
        Ok(Some(record))
    }

    /// Takes the next record, and returns the call that it means, or why it is refused, for a database with these limits, as
    /// `Record::call` does.
    ///
    /// Once the memory of such calls is given back by `reuse`, a call takes no more of it.
    pub fn next_call(&mut self, limits: &Limits) -> Result<Result<Call, Refusal>, NoMemory>
        requires limits { are_limits (limits_of limits.now) ≡ true }
        requires some { 0 < length self.old.records }
        ensures request { IfOk result (λ asked.
            first_request self.old.version (limits_of limits.now) self.old.records ≡ Some (request_of asked)) }
        ensures within { IfOk result (λ asked. IfOk asked (IsWithinLimits (limits_of limits.now))) }
        ensures taken { OnOk result (self.new ≡ past 1 self.old) }
        ensures err { OnErr result (self.new.records ≡ []) }
    {
        let asked = request(
            self.version,
            limits,
            &mut Fields::of_row(&self.row),
            &mut self.buffers,
        );
        let asked = match asked {
            Ok(call) => Ok(call),
            Err(CallError::Refused(refusal)) => Err(refusal),
            Err(CallError::NoMemory) => return Err(self.stop()),
        };
        self.advance()?;
        Ok(asked)
    }

    /// Takes the next record if it means an access, for a database with these limits, and returns that access. It takes no
    /// memory of its own.
    pub fn next_access(&mut self, limits: &Limits) -> Result<Option<(Place, Access)>, NoMemory>
        requires { are_limits (limits_of limits.now) ≡ true }
        ensures access { IfOk result (λ access.
            access ≡ access_in (first_request self.old.version (limits_of limits.now) self.old.records)) }
        ensures within { IfOk result (λ access. IfSome access (λ a. IsWithin (limits_of limits.now) a.0)) }
        ensures taken { IfOk result (λ access. MatchOption access (self.new ≡ self.old) (λ _. self.new ≡ past 1 self.old)) }
        ensures err { OnErr result (self.new.records ≡ []) }
    {
        if !self.has_row {
            return Ok(None);
        }
        let Some(access) = access_only(limits, &mut Fields::of_row(&self.row)) else {
            return Ok(None);
        };
        self.advance()?;
        Ok(Some(access))
    }

    /// Keeps the memory of a call for the calls to come.
    pub fn reuse(&mut self, call: Call)
        ensures { self.new ≡ self.old }
    {
        self.buffers.keep(call);
    }

    /// Goes on to the record behind the one that is next.
    fn advance(&mut self) -> Result<(), NoMemory>
        requires { 0 < length self.old.records }
        ensures ok { OnOk result (self.new ≡ past 1 self.old) }
        ensures err { OnErr result (self.new.records ≡ []) }
    {
        if self.number == u64::MAX {
            self.has_row = false;
            return Err(NoMemory);
        }
        let Ok(has_row) = next_row(&mut self.rows, &mut self.row) else {
            self.has_row = false;
            return Err(NoMemory);
        };
        self.has_row = has_row;
        self.number += 1;
        Ok(())
    }

    /// Leaves no record.
    fn stop(&mut self) -> NoMemory
        ensures { self.new.records ≡ [] }
    {
        self.has_row = false;
        NoMemory
    }
}
