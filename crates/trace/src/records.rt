//! The records of a trace's bytes.

ghost use Rattle.std.specs.Prelude.{◌≡◌, true, IfOk};
ghost use Rattle.csv.specs.Records.{fields_of};
ghost use Rattle.fields.specs.Meaning.{version_of};
ghost use Rattle.trace.specs.Meaning.{shown};
ghost use Rattle.trace.specs.Rows.{IsAtStart, IsReading, rows_left, with_row};

use crate::bytes::Bytes;
use csv::{ByteRecord, ByteRecordIter, Reader, ReaderBuilder};
use fields::Version;
use space::NoMemory;
use std::alloc::Global;
use std::marker::Model;

/// A record of a trace: the version that the trace has, and the fields, each of any bytes. A contract sees both.
#[derive(Drop)]
pub struct Record {
    version: Version,
    row: ByteRecord,
}

impl Model for Record {
    ghost use Rattle.csv.specs.Records.{fields_of};
    ghost use Rattle.fields.specs.Meaning.{version_of};
    ghost use Rattle.trace.specs.Meaning.{TraceRecord};

    ghost Value = { TraceRecord };

    ghost view = { λ r. record { version = version_of r.version; fields = fields_of r.row } };
}

impl Record {
    /// Makes a record of these fields, in a trace of this version.
    pub fn new(alloc: Global, version: Version, fields: &[&[u8]]) -> Result<Self, NoMemory>
        ensures { IfOk result (λ made. made ≡ record { version = version_of version; fields = shown fields.now }) }
    {
        let row = ByteRecord::from_fields(alloc, fields)?;
        Ok(Record { version, row })
    }

    /// Makes a record of a row's fields.
    pub(crate) fn of_row(version: Version, row: &ByteRecord) -> Result<Self, NoMemory>
        ensures { IfOk result (λ made. made ≡ record { version = version_of version; fields = fields_of row.now }) }
    {
        let row = row.clone()?;
        Ok(Record { version, row })
    }

    /// Returns the version that the trace has.
    pub fn version(&self) -> Version
        ensures { version_of result ≡ self.now.version }
    {
        self.version
    }

    /// Returns the fields, to be taken in order. They are read in place, and nothing is allocated.
    pub fn fields(&self) -> Fields<'_>
        ensures { result ≡ self.now.fields }
    {
        Fields::of_row(&self.row)
    }
}

/// The fields of a record that are left to read. A contract sees the list of them.
#[derive(Drop)]
pub struct Fields<'a> {
    rest: ByteRecordIter<'a>,
}

impl<'a> Model for Fields<'a> {
    ghost use Rattle.std.specs.Prelude.{drop};
    ghost use Rattle.csv.specs.Records.{fields_of};
    ghost use Rattle.model.specs.Definitions.Records.{Fields};

    ghost Value = { Fields };

    ghost view = { λ f. drop f.rest.at (fields_of f.rest.row.now) };
}

impl<'a> Fields<'a> {
    ghost use Rattle.trace.specs.Parts.{Takes};

    /// Returns the fields of a row.
    pub(crate) fn of_row(row: &'a ByteRecord) -> Self
        ensures { result ≡ fields_of row.now }
    {
        Fields { rest: row.iter() }
    }

    /// Takes the next field; none if no field is left.
    pub fn take(&mut self) -> Option<&'a [u8]>
        ensures { Takes self.old result self.new }
    {
        self.rest.next()
    }
}

/// Returns a reader of the bytes' rows: no header row, any number of fields, nothing trimmed.
pub(crate) fn rows(alloc: Global, bytes: Bytes) -> Reader<Bytes>
    ensures { IsAtStart bytes result }
{
    ReaderBuilder::new()
        .has_headers(false)
        .flexible(true)
        .from_reader(alloc, bytes)
}

/// Reads the next row in place of this one, as `csv` does, and returns whether there was one.
pub(crate) fn next_row(rows: &mut Reader<Bytes>, row: &mut ByteRecord) -> Result<bool, NoMemory>
    requires { IsReading rows.old }
    ensures rows { IfOk result (λ found. rows_left rows.old ≡ with_row found (fields_of row.new) rows.new) }
    ensures reading { IfOk result (λ found. found ≡ true → IsReading rows.new) }
{
    // Bytes in memory are always readable, so the only error is out of memory.
    let Ok(found) = rows.read_byte_record(row) else {
        return Err(NoMemory);
    };
    Ok(found)
}
