//! What the program tells of a run that ended early.

ghost use Rattle.std.specs.Prelude.{◌≡◌, OnOk, OnErr, true};
ghost use Rattle.std.specs.Io.KnownBytes.{Appends};
ghost use Rattle.l4map_cli.specs.Error.{status_of, error_line, record_line};

use itoa::Buffer;
use replay::RunError;
use trace::{Failed, Sink};

/// The exit status of a run that ended with this error.
pub fn status(error: RunError) -> u8
    ensures { result ≡ status_of error }
{
    match error {
        RunError::BadHeader | RunError::BadLimits => 2,
        RunError::NoMemory(_) | RunError::NoWorker(_) => 3,
        RunError::Unreadable | RunError::WriteFailed => 4,
    }
}

/// Writes the line that tells of an error, and fails only where a write does. It allocates nothing beyond what the writer allocates.
pub fn tell<W: Sink>(error: RunError, writer: &mut W) -> Result<(), Failed>
    ensures line { OnOk result (Appends (W.contents writer.old) (W.contents writer.new) (error_line error)) }
    ensures ok { OnOk result (W.failed writer.new ≡ W.failed writer.old) }
    ensures err { OnErr result (W.failed writer.new ≡ true) }
{
    match error {
        RunError::BadHeader => writer.write_all(b"l4map: BadHeader\n"),
        RunError::BadLimits => writer.write_all(b"l4map: BadLimits\n"),
        RunError::NoMemory(number) => tell_record(writer, number, b": NoMemory\n"),
        RunError::NoWorker(number) => tell_record(writer, number, b": NoWorker\n"),
        RunError::Unreadable => writer.write_all(b"l4map: Unreadable\n"),
        RunError::WriteFailed => writer.write_all(b"l4map: WriteFailed\n"),
    }
}

fn tell_record<W: Sink>(writer: &mut W, number: u64, what: &[u8]) -> Result<(), Failed>
    ensures line { OnOk result (Appends (W.contents writer.old) (W.contents writer.new) (record_line number what.now)) }
    ensures ok { OnOk result (W.failed writer.new ≡ W.failed writer.old) }
    ensures err { OnErr result (W.failed writer.new ≡ true) }
{
    writer.write_all(b"l4map: record ")?;
    let mut digits = Buffer::new();
    writer.write_all(digits.format(number).as_bytes())?;
    writer.write_all(what)
}
