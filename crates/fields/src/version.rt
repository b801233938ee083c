ghost use Rattle.std.specs.Prelude.{◌≡◌, option_map};
ghost use Rattle.model.specs.Definitions.Records.{version_field, has_clear};
ghost use Rattle.fields.specs.Meaning.{version_of};

/// The version of a trace's format.
#[derive(Clone, Copy, Debug, PartialEq, Eq)]
pub enum Version {
    /// Version 1: `send`, `access` and `unmap`.
    One,
    /// Version 2: these, and `clear`.
    Two,
}

impl Version {
    /// Reads a version: `1` or `2`.
    pub fn of_field(field: &[u8]) -> Option<Self>
        ensures { option_map version_of result ≡ version_field field.now }
    {
        match field {
            b"1" => Some(Version::One),
            b"2" => Some(Version::Two),
            _ => None,
        }
    }

    /// Whether a trace of this version may have `clear`.
    pub fn has_clear(self) -> bool
        ensures { result ≡ has_clear (version_of self) }
    {
        match self {
            Version::One => false,
            Version::Two => true,
        }
    }
}
