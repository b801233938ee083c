/// The limits of a database.
#[derive(Clone, Copy, Debug, PartialEq, Eq)]
pub struct Limits {
    /// How many spaces there are, numbered from 0.
    pub spaces: u32,
    /// A space has `2^bits` bytes.
    pub bits: u32,
    /// How many frames there are, numbered from 0.
    pub frames: u32,
}

impl Limits {
    ghost use Rattle.std.specs.Prelude.{◌≡◌};
    ghost use Rattle.model.specs.Definitions.Records.{are_limits};
    ghost use Rattle.holdings.specs.Meaning.{limits_of};

    /// Whether there are 2 to 512 spaces of 64 to 1,048,576 pages, and 1 frame to as many as a space has pages.
    pub fn are_served(&self) -> bool
        ensures { result ≡ are_limits (limits_of self.now) }
    {
        (2..=512).contains(&self.spaces)
            && (18..=32).contains(&self.bits)
            && self.frames >= 1
            && self.frames <= 1 << (self.bits - 12)
    }
}
