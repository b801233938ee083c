//! Mappings that are no longer held.

ghost use Rattle.std.specs.Prelude.{◌≤◌, length};

use crate::lines::push_more;
use crate::mark::{mapping_at, push_mapping};
use mapdb::Mapping;
use std::alloc::{AllocError, Global};
use std::fmt::Write;

/// How many of some mappings are no longer held: after, by rising place, their places hold nothing.
pub fn gone_count(before: &[Mapping], after: &[Mapping]) -> usize
    ensures { result ≤ length before.now }
{
    before
        .iter()
        .filter(|mapping| mapping_at(after, mapping.place).is_none())
        .count()
}

/// Some mappings with those of others that are no longer held, by rising place: after, by rising place, their places
/// hold nothing.
pub fn with_gone(
    alloc: Global,
    before: &[Mapping],
    some: &[Mapping],
    after: &[Mapping],
) -> Result<Vec<Mapping>, AllocError> {
    let mut all = Vec::with_capacity(alloc, some.len())?;
    all.extend_from_slice(some)?;
    for mapping in before {
        if mapping_at(after, mapping.place).is_none() {
            all.push(*mapping)?;
        }
    }
    all.sort_by_key(|mapping| mapping.place)?;
    Ok(all)
}

/// Appends those of some mappings that are no longer held, one a line: at most so many, and how many more there are.
pub fn push_gone(
    text: &mut String,
    before: &[Mapping],
    after: &[Mapping],
    most: u64,
) -> Result<(), AllocError> {
    let mut drawn = 0u64;
    for (i, mapping) in before.iter().enumerate() {
        if mapping_at(after, mapping.place).is_some() {
            continue;
        }
        if drawn >= most {
            return push_more(text, gone_count(&before[i..], after), "mapping");
        }
        drawn = drawn.saturating_add(1);
        text.push_str("- ")?;
        push_mapping(text, mapping)?;
        write!(text, " of frame {}\n", mapping.frame)?;
    }
    Ok(())
}
