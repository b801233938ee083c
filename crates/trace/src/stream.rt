//! Where a trace is read from, and where its text is written to.

ghost use Rattle.std.specs.Prelude.{◌≡◌, ℕ, Bool, true, false, List, Option, None, IfOk, IfErr, IfSome, OnOk, OnErr};
ghost use Rattle.std.specs.Io.{ReadsAtMost};
ghost use Rattle.std.specs.Io.KnownBytes.{ReadConsumes, Appends, Keeps};
ghost use Rattle.trace.specs.Stream.{TellsFailure};

use crate::bytes::{Bytes, Incoming};
use std::alloc::Global;
use std::io::{ErrorKind, Read, Write};
use thiserror::Error;

/// A read or a write failed.
#[derive(Clone, Copy, Debug, PartialEq, Eq, Error)]
#[error("the stream failed")]
pub struct Failed;

/// Where bytes are read from.
pub trait Source {
    /// The bytes that reads will give from here on, where they are known.
    ghost remaining: { Self → Option (List ℕ) } = { λ _. None };

    /// Whether a read has failed.
    ghost failed: { Self → Bool };

    /// Reads some bytes into the buffer and returns how many; 0 only at the end, or if the buffer has no room.
    fn read(&mut self, buf: &mut [u8]) -> Result<usize, Failed>
        ensures bound { ReadsAtMost result buf.new }
        ensures bytes { ReadConsumes (remaining self.old) (remaining self.new) result buf.new }
        ensures ok { OnOk result (failed self.new ≡ failed self.old) }
        ensures err { OnErr result (failed self.new ≡ true) };

    fn has_failed(&self) -> bool
        ensures { result ≡ failed self.now };
}

/// Where bytes are written to.
pub trait Sink {
    /// The bytes that it holds, where they are known.
    ghost contents: { Self → Option (List ℕ) } = { λ _. None };

    /// Whether a write or a flush has failed.
    ghost failed: { Self → Bool };

    /// Writes all of the bytes. After an error nothing is known of what was written.
    fn write_all(&mut self, bytes: &[u8]) -> Result<(), Failed>
        ensures bytes { OnOk result (Appends (contents self.old) (contents self.new) bytes.now) }
        ensures ok { OnOk result (failed self.new ≡ failed self.old) }
        ensures err { OnErr result (failed self.new ≡ true) };

    /// Passes on what is buffered.
    fn flush(&mut self) -> Result<(), Failed>
        ensures bytes { OnOk result (Keeps (contents self.old) (contents self.new)) }
        ensures ok { OnOk result (failed self.new ≡ failed self.old) }
        ensures err { OnErr result (failed self.new ≡ true) };

    fn has_failed(&self) -> bool
        ensures { result ≡ failed self.now };
}

/// A reader or a writer of the standard library, with whether it has failed.
#[derive(Drop)]
pub struct Std<T> {
    inner: T,
    failed: bool,
}

impl<T> Std<T> {
    ghost use Rattle.trace.specs.Std.{inner_of, is_failed};

    /// Wraps a reader or a writer, which has not failed.
    pub fn new(inner: T) -> Self
        ensures inner { inner_of result ≡ inner }
        ensures works { is_failed result ≡ false }
    {
        Std {
            inner,
            failed: false,
        }
    }

    /// Returns the reader or the writer.
    pub fn into_inner(self) -> T
        ensures { result ≡ inner_of self }
    {
        let Std { inner, failed: _ } = self;
        inner
    }
}

impl<R: Read> Source for Std<R> {
    ghost remaining = { λ s. R.remaining s.inner };

    ghost failed = { λ s. s.failed };

    /// A read that was interrupted is tried again.
    fn read(&mut self, buf: &mut [u8]) -> Result<usize, Failed> {
        for _ in 0..u64::MAX {
            match self.inner.read(buf) {
                Ok(count) => return Ok(count),
                Err(error) if error.kind() == ErrorKind::Interrupted => {}
                Err(_) => break,
            }
        }
        self.failed = true;
        Err(Failed)
    }

    fn has_failed(&self) -> bool {
        self.failed
    }
}

impl<W: Write> Sink for Std<W> {
    ghost contents = { λ s. W.contents s.inner };

    ghost failed = { λ s. s.failed };

    fn write_all(&mut self, bytes: &[u8]) -> Result<(), Failed> {
        if self.inner.write_all(bytes).is_err() {
            self.failed = true;
            return Err(Failed);
        }
        Ok(())
    }

    fn flush(&mut self) -> Result<(), Failed> {
        if self.inner.flush().is_err() {
            self.failed = true;
            return Err(Failed);
        }
        Ok(())
    }

    fn has_failed(&self) -> bool {
        self.failed
    }
}

/// Why a source was not read to its end.
#[derive(Clone, Copy, Debug, PartialEq, Eq, Error)]
pub enum ReadError {
    #[error("a read failed")]
    Failed,
    #[error("out of memory")]
    NoMemory,
}

/// How many bytes are asked for at once.
const CHUNK: usize = 8192;

/// Reads a source to its end.
pub fn read_to_end<S: Source>(alloc: Global, source: &mut S) -> Result<Bytes, ReadError>
    ensures bytes { IfOk result (λ bytes. IfSome (S.remaining source.old) (λ input. bytes ≡ input)) }
    ensures ok { OnOk result (S.failed source.new ≡ S.failed source.old) }
    ensures err { IfErr result (TellsFailure (S.failed source.old) (S.failed source.new)) }
{
    let mut incoming = Incoming::new(alloc);
    let mut chunk = [0; CHUNK];
    for _ in 0..u64::MAX {
        let count = source.read(&mut chunk).map_err(|_| ReadError::Failed)?;
        if count == 0 {
            return incoming.into_bytes(alloc).map_err(|_| ReadError::NoMemory);
        }
        incoming
            .push(alloc, &chunk[..count])
            .map_err(|_| ReadError::NoMemory)?;
    }
    Err(ReadError::NoMemory)
}
