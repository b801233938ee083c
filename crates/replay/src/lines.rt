//! Reply lines on their way to a sink.

ghost use Rattle.std.specs.Prelude.{◌≡◌, ◌++◌, [], true, OnOk, OnErr};
ghost use Rattle.std.specs.Io.KnownBytes.{Appends};
ghost use Rattle.model.specs.Definitions.Text.{reply_line};
ghost use Rattle.trace.specs.Meaning.{reply_of};
ghost use Rattle.replay.specs.Steps.{PassesOn};

use space::NoMemory;
use std::alloc::Global;
use std::marker::Model;
use trace::{Failed, Reply, Sink, push_access, push_reply, push_sent};

/// Reply lines that the sink was not given yet. A contract sees their bytes.
#[derive(Drop)]
pub struct Lines {
    block: Vec<u8>,
    /// How many bytes are passed on at once.
    least: usize,
    /// A line before it is put behind the others. That of an access, or of a send with small counts, is put there at once.
    line: String,
}

impl Model for Lines {
    ghost use Rattle.std.specs.Prelude.{ℕ, List};

    ghost Value = { List ℕ };

    ghost view = { λ l. l.block.items };
}

impl Lines {
    /// Makes room for lines, of which so many bytes are passed on at once; there is none yet.
    pub fn new(alloc: Global, least: usize) -> Self
        ensures { result ≡ [] }
    {
        Lines {
            block: Vec::new(alloc),
            least,
            line: String::new(alloc),
        }
    }

    /// Adds the line of a reply. If memory runs out, the lines stay as they were.
    pub fn push(&mut self, number: u64, reply: &Reply) -> Result<(), NoMemory>
        ensures ok { OnOk result (self.new ≡ self.old ++ reply_line number (reply_of reply.now)) }
        ensures err { OnErr result (self.new ≡ self.old) }
    {
        match reply {
            Reply::Accessed(made) => return push_access(&mut self.block, number, *made),
            Reply::Sent(counts) => {
                if push_sent(&mut self.block, number, counts)? {
                    return Ok(());
                }
            }
            _ => {}
        }
        self.line.clear();
        push_reply(&mut self.line, number, reply)?;
        self.block.extend_from_slice(self.line.as_bytes())?;
        Ok(())
    }

    /// Gives all lines to the sink.
    pub fn pass_on<W: Sink>(&mut self, writer: &mut W) -> Result<(), Failed>
        ensures bytes { OnOk result (Appends (W.contents writer.old) (W.contents writer.new) self.old) }
        ensures none { OnOk result (self.new ≡ []) }
        ensures ok { OnOk result (W.failed writer.new ≡ W.failed writer.old) }
        ensures err { OnErr result (W.failed writer.new ≡ true) }
    {
        writer.write_all(&self.block)?;
        self.block.clear();
        Ok(())
    }

    /// Gives all lines to the sink once they are worth a write.
    pub fn pass_on_many<W: Sink>(&mut self, writer: &mut W) -> Result<(), Failed>
        ensures bytes { OnOk result (PassesOn (W.contents writer.old) (W.contents writer.new) self.old self.new) }
        ensures ok { OnOk result (W.failed writer.new ≡ W.failed writer.old) }
        ensures err { OnErr result (W.failed writer.new ≡ true) }
    {
        if self.block.len() < self.least {
            return Ok(());
        }
        self.pass_on(writer)
    }
}
