//! How far a run has come, told in one line of a terminal.

use itoa::Buffer;
use replay::{BLOCK, Watch};
use std::io::Write;
use std::time::{Clock, Duration, Instant};

/// How many milliseconds a run has to take before anything is told of it.
const PATIENCE: u64 = 2000;

/// How many milliseconds a line stands before it is written anew.
const PAUSE: u64 = 200;

/// Puts the cursor of a terminal at the start of its line, and clears what stands there.
const CLEAR: &[u8] = b"\r\x1b[K";

/// Tells on a terminal how far a run has come, once it has taken two seconds: in one line, written in place, of how many
/// records are done and how many a second. What fails here is passed over, since it changes nothing of the run.
#[derive(Drop)]
pub struct Progress<'a, C: Clock, E: Write + Drop> {
    clock: &'a C,
    terminal: E,
    /// When the run began; none if nothing is to be told.
    began: Option<Instant>,
    /// How long after that the next line is due.
    due: Duration,
    has_line: bool,
    /// How many records are done, counted again each time that the run goes over them.
    done: u64,
    /// The number that was heard last.
    number: u64,
    block: usize,
}

impl<'a, C: Clock, E: Write + Drop> Progress<'a, C, E> {
    /// Begins to watch a run. It tells of it only if `tells`; with `line_by_line` each reply line is passed on as it comes.
    pub fn new(clock: &'a C, terminal: E, tells: bool, line_by_line: bool) -> Self {
        let began = if tells {
            Instant::now(clock).ok()
        } else {
            None
        };
        Progress {
            clock,
            terminal,
            began,
            due: Duration::from_millis(PATIENCE),
            has_line: false,
            done: 0,
            number: 1,
            block: if line_by_line { 0 } else { BLOCK },
        }
    }

    /// Takes the line away.
    pub fn end(&mut self) {
        if self.has_line {
            let _ = self.terminal.write_all(CLEAR);
            self.has_line = false;
        }
    }

    /// Counts the records before this number.
    fn count(&mut self, number: u64) {
        let more = if number < self.number {
            number.saturating_sub(1)
        } else {
            number - self.number
        };
        self.done = self.done.saturating_add(more);
        self.number = number;
    }

    /// Writes the line anew.
    fn tell(&mut self, spent: Duration) {
        let a_second = u128::from(self.done) * 1000 / spent.as_millis().max(1);
        self.has_line = true;
        let mut digits = Buffer::new();
        let mut rate = Buffer::new();
        for part in [
            CLEAR,
            digits.format(self.done).as_bytes(),
            b" records, ",
            rate.format(a_second).as_bytes(),
            b" a second",
        ] {
            let _ = self.terminal.write_all(part);
        }
    }
}

impl<'a, C: Clock, E: Write + Drop> Watch for Progress<'a, C, E> {
    fn block(&self) -> usize {
        self.block
    }

    fn hear(&mut self, number: u64) {
        let Some(began) = self.began else {
            return;
        };
        self.count(number);
        let Ok(spent) = began.elapsed(self.clock) else {
            return;
        };
        if self.due <= spent {
            self.due = spent.saturating_add(Duration::from_millis(PAUSE));
            self.tell(spent);
        }
    }
}
