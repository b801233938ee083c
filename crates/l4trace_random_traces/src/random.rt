//! Traces made at random, the same for the same plan.

ghost use Rattle.l4trace_random_traces.specs.Random.{IsPlan};

use crate::dice::Dice;
use crate::plan::{Plan, Shape};
use crate::shapes::push_record;
use crate::traces::Traces;
use replay::Watch;
use std::alloc::{AllocError, Global};
use std::fmt::Write;
use trace::{Failed, Sink, Version};

/// Why no trace was made.
#[derive(Clone, Copy, Debug, PartialEq, Eq)]
pub enum RandomError {
    /// Out of memory.
    NoMemory,
    /// A write failed.
    WriteFailed,
}

impl From<AllocError> for RandomError {
    fn from(_: AllocError) -> Self {
        RandomError::NoMemory
    }
}

impl From<Failed> for RandomError {
    fn from(_: Failed) -> Self {
        RandomError::WriteFailed
    }
}

/// Writes a trace. The watch hears how far it has come.
pub fn write_random<W: Sink, V: Watch>(
    alloc: Global,
    plan: &Plan,
    writer: &mut W,
    watch: &mut V,
) -> Result<(), RandomError>
    requires { IsPlan plan.now }
{
    write_header(alloc, plan, writer)?;
    match plan.shape {
        Shape::Rules => write_by_rules(alloc, plan, writer, watch),
        _ => write_plain(alloc, plan, writer, watch),
    }
}

/// Writes the header.
fn write_header<W: Sink>(alloc: Global, plan: &Plan, writer: &mut W) -> Result<(), RandomError> {
    let Plan {
        spaces,
        bits,
        frames,
        ..
    } = *plan;
    let version = number_of(plan.version);
    let line = format!(in alloc; "l4map,{version},{spaces},{bits},{frames}\n")?;
    writer.write_all(line.as_bytes())?;
    Ok(())
}

/// The number of a version.
fn number_of(version: Version) -> u32 {
    match version {
        Version::One => 1,
        Version::Two => 2,
    }
}

/// Writes records that reach every rule.
fn write_by_rules<W: Sink, V: Watch>(
    alloc: Global,
    plan: &Plan,
    writer: &mut W,
    watch: &mut V,
) -> Result<(), RandomError>
    requires { IsPlan plan.now }
{
    let mut traces = Traces::new(alloc, plan);
    let records = plan.records;
    for number in 0..records {
        let to_come = records - number - 1;
        watch.hear(number);
        traces.record(to_come)?;
        writer.write_all(traces.line.text.as_bytes())?;
    }
    Ok(())
}

/// Writes records of a plain shape.
fn write_plain<W: Sink, V: Watch>(
    alloc: Global,
    plan: &Plan,
    writer: &mut W,
    watch: &mut V,
) -> Result<(), RandomError>
    requires { IsPlan plan.now }
{
    let mut dice = Dice::new(plan.seed);
    let mut line = String::new(alloc);
    for number in 0..plan.records {
        watch.hear(number);
        line.clear();
        push_record(&mut line, &mut dice, plan)?;
        writer.write_all(line.as_bytes())?;
    }
    Ok(())
}
