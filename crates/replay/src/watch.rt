//! Who hears how far a run has come.

/// How many bytes of reply lines are worth a write where nobody waits for them.
pub const BLOCK: usize = 32_768;

/// Who hears how far a run has come. What it does changes nothing of what is written.
pub trait Watch {
    /// How many bytes of reply lines are passed on at once: those that are fewer wait for more. With 0 each line is passed on
    /// as it comes.
    fn block(&self) -> usize {
        BLOCK
    }

    /// Hears that the records before this number were answered.
    fn hear(&mut self, number: u64);
}

/// Hears nothing.
#[derive(Clone, Copy, Debug)]
pub struct NoWatch;

impl Watch for NoWatch {
    fn hear(&mut self, _number: u64) {}
}
