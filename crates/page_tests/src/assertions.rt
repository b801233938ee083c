//! Assertions that the tests share: each is proved once, for all that is compared with it.

use std::fmt::{Debug, Display};
use std::process::Abort;

/// What was found is what was expected. A failure tells both, and this name.
pub fn assert_equal<T: PartialEq + Debug + Drop, N: Display + Drop>(
    rt: &impl Abort,
    found: T,
    expected: T,
    name: N,
) {
    if found != expected {
        panic!(rt; "{name}: {found:?} in place of {expected:?}");
    }
}

/// What has this name holds.
pub fn assert_holds<N: Display + Drop>(rt: &impl Abort, holds: bool, name: N) {
    if !holds {
        panic!(rt; "{name}");
    }
}
