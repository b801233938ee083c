//! l4trace: explains words and traces, makes both, checks traces, shows what they hold, and compares answers to them.
#![tactic(auto)]

ghost use Rattle.std.specs.Prelude.{IfOk};
ghost use Rattle.fpage.specs.Fpage.{IsSpaceBits};
ghost use Rattle.l4trace_random_traces.specs.Random.{IsPlan};
ghost use Rattle.l4trace_command_lines.specs.Task.{IsServed};

mod error;
mod input;
mod paint;

use error::{ToolError, compare_error, no_record, show_error, told};
use input::read_trace;
use l4trace_checks::{Found, Subject, check_trace};
use l4trace_command_lines::{Task, TaskError, parse};
use l4trace_differences::{Compared, Comparison, Trees, compare};
use l4trace_drawings::{Form, Question, View};
use l4trace_moments::{
    Excerpt, ShowError, audit_after, push_changed_trees, push_explained, push_tree, push_view,
    push_why,
};
use l4trace_random_traces::{Plan, write_random};
use l4trace_texts::{CompareOptions, Front, explain_all, front_of};
use paint::painted;
use progress::Progress;
use replay::Watch;
use std::alloc::{AllocError, Global};
use std::env::Env;
use std::io::{BufWriter, ErrorKind, IsTerminal, Write};
use std::process::ExitCode;
use std::rt::Files;
use std::thread::Threads;
use std::time::Clock;
use std::{env, io};
use trace::{Sink, Std};

/// Reads the program's command line.
fn read_command_line(rt: &(impl AllocGlobal + Env)) -> Result<Task, TaskError>
    ensures { IfOk result IsServed }
{
    let alloc = rt.alloc();
    let arguments = match env::args(rt) {
        Ok(arguments) => arguments,
        Err(error) if error.kind() == ErrorKind::InvalidData => {
            return Err(TaskError::Refused(String::from_str(
                alloc,
                "error: an argument is not valid UTF-8\n",
            )?));
        }
        Err(_) => return Err(TaskError::NoMemory),
    };
    let words: Vec<String> = arguments.collect(alloc)?;
    let mut texts = Vec::with_capacity(alloc, words.len())?;
    for word in &words {
        texts.push(word.as_str()).map_err(AllocError::from)?;
    }
    parse(alloc, &texts)
}

/// Writes a text to standard output.
fn print(rt: &impl Print, text: &str) -> Result<(), ToolError> {
    Std::new(io::writer(rt))
        .write_all(text.as_bytes())
        .map_err(|_| ToolError::WriteFailed)
}

/// Checks a trace, and returns whether its header or a record is refused.
fn check_named(
    rt: &(impl AllocGlobal + Input + Print + Files),
    name: &str,
    most: u64,
    watch: &mut impl Watch,
) -> Result<bool, ToolError> {
    let bytes = read_trace(rt, name)?;
    let Ok(output) = BufWriter::new(rt.alloc(), io::writer(rt)) else {
        return Err(ToolError::NoMemory);
    };
    let mut writer = Std::new(output);
    let subject = Subject {
        name,
        bytes: &bytes,
        most,
    };
    let found = check_trace(rt.alloc(), &subject, &mut writer, watch)?;
    writer.flush().map_err(|_| ToolError::WriteFailed)?;
    match found {
        Found::Records {
            records: _,
            refused,
        } => Ok(refused > 0),
        _ => Ok(true),
    }
}

/// Writes a text to standard output, coloured or as it is.
fn print_painted(
    rt: &(impl AllocGlobal + Print),
    text: &[u8],
    colored: bool,
) -> Result<(), ToolError> {
    let mut writer = Std::new(io::writer(rt));
    if colored {
        let shown = painted(rt.alloc(), text)?;
        return writer.write_all(&shown).map_err(|_| ToolError::WriteFailed);
    }
    writer.write_all(text).map_err(|_| ToolError::WriteFailed)
}

/// Appends the trees that tell more of the first difference.
fn push_trees<V: Watch>(
    alloc: Global,
    text: &mut Vec<u8>,
    comparison: &Comparison<'_>,
    found: Compared,
    watch: &mut V,
) -> Result<(), ToolError> {
    let Compared::Differs(Some(trees)) = found else {
        return Ok(());
    };
    let Comparison { name, trace, .. } = *comparison;
    let most = comparison.options.most;
    let mut drawn = String::new(alloc);
    let outcome = match trees {
        Trees::ChangedBy(record) => {
            push_changed_trees(alloc, &mut drawn, trace, record, most, watch)
        }
        Trees::OfFrame { frame, at } => {
            let view = View {
                at,
                frame: Some(frame),
                space: None,
                form: Form::Text,
                most,
            };
            push_tree(alloc, &mut drawn, name, trace, &view, watch)
        }
    };
    match outcome {
        Ok(()) => Ok(text.extend_from_slice(drawn.as_bytes())?),
        // The answers that differ may tell of a frame that there is not.
        Err(ShowError::NoFrame { .. }) => Ok(()),
        Err(error) => Err(show_error(alloc, name, trace, error)?),
    }
}

/// What is told of a comparison, and what it found.
fn comparison_text<T: AllocGlobal + Threads + Sync, V: Watch>(
    rt: &T,
    comparison: &Comparison<'_>,
    watch: &mut V,
) -> Result<(Vec<u8>, Compared), ToolError> {
    let alloc = rt.alloc();
    let Comparison { name, trace, .. } = *comparison;
    let mut writer = Std::new(Vec::new(alloc));
    let found = match compare(rt, comparison, &mut writer, watch) {
        Ok(found) => found,
        Err(error) => return Err(compare_error(alloc, name, trace, error)?),
    };
    let mut text = writer.into_inner();
    push_trees(alloc, &mut text, comparison, found, watch)?;
    Ok((text, found))
}

/// The front of a trace with so many records, or the whole if no number is given.
fn asked_front<'a>(
    alloc: Global,
    name: &str,
    bytes: &'a [u8],
    at: Option<u64>,
) -> Result<&'a [u8], ToolError> {
    let Some(number) = at else {
        return Ok(bytes);
    };
    let Ok(
        Front {
            bytes: front,
            records,
        },
    ) = front_of(alloc, bytes, number)
    else {
        return Err(ToolError::NoMemory);
    };
    if records < number {
        return Err(no_record(alloc, name, number, records)?);
    }
    Ok(front)
}

/// What is told of answers that are compared with those of l4map, and what the comparison found.
fn compared<T: AllocGlobal + Input + Files + Threads + Sync, V: Watch>(
    rt: &T,
    trace: &str,
    answers: &str,
    at: Option<u64>,
    options: CompareOptions,
    watch: &mut V,
) -> Result<(Vec<u8>, Compared), ToolError> {
    let bytes = read_trace(rt, trace)?;
    let told = read_trace(rt, answers)?;
    let comparison = Comparison {
        name: trace,
        trace: asked_front(rt.alloc(), trace, &bytes, at)?,
        answers: &told,
        options,
    };
    comparison_text(rt, &comparison, watch)
}

/// What a trace holds.
fn shown<T: AllocGlobal + Input + Files, V: Watch>(
    rt: &T,
    name: &str,
    view: &View,
    watch: &mut V,
) -> Result<String, ToolError> {
    let bytes = read_trace(rt, name)?;
    let mut text = String::new(rt.alloc());
    match push_view(rt.alloc(), &mut text, name, &bytes, view, watch) {
        Ok(()) => Ok(text),
        Err(error) => Err(show_error(rt.alloc(), name, &bytes, error)?),
    }
}

/// The audit after a record of a trace.
fn audited<T: AllocGlobal + Input + Files + Threads + Sync, V: Watch>(
    rt: &T,
    name: &str,
    at: Option<u64>,
    watch: &mut V,
) -> Result<Vec<u8>, ToolError> {
    let bytes = read_trace(rt, name)?;
    match audit_after(rt, &bytes, at, watch) {
        Ok(audit) => Ok(audit),
        Err(error) => Err(show_error(rt.alloc(), name, &bytes, error)?),
    }
}

/// An excerpt of a trace, in sentences.
fn explained<T: AllocGlobal + Input + Files, V: Watch>(
    rt: &T,
    name: &str,
    excerpt: &Excerpt,
    watch: &mut V,
) -> Result<String, ToolError> {
    let bytes = read_trace(rt, name)?;
    let mut text = String::new(rt.alloc());
    match push_explained(rt.alloc(), &mut text, name, &bytes, excerpt, watch) {
        Ok(()) => Ok(text),
        Err(error) => Err(show_error(rt.alloc(), name, &bytes, error)?),
    }
}

/// Where a page of a trace came from.
fn answered<T: AllocGlobal + Input + Files, V: Watch>(
    rt: &T,
    name: &str,
    question: &Question,
    watch: &mut V,
) -> Result<String, ToolError> {
    let bytes = read_trace(rt, name)?;
    let mut text = String::new(rt.alloc());
    match push_why(rt.alloc(), &mut text, name, &bytes, question, watch) {
        Ok(()) => Ok(text),
        Err(error) => Err(show_error(rt.alloc(), name, &bytes, error)?),
    }
}

/// Writes a trace made at random.
fn write_planned(
    rt: &(impl AllocGlobal + Print),
    plan: &Plan,
    watch: &mut impl Watch,
) -> Result<(), ToolError>
    requires { IsPlan plan.now }
{
    let Ok(output) = BufWriter::new(rt.alloc(), io::writer(rt)) else {
        return Err(ToolError::NoMemory);
    };
    let mut writer = Std::new(output);
    write_random(rt.alloc(), plan, &mut writer, watch)?;
    writer.flush().map_err(|_| ToolError::WriteFailed)
}

/// Writes what words are, for spaces of `2^bits` bytes.
fn print_explained(
    rt: &(impl AllocGlobal + Print),
    words: &[u32],
    bits: u32,
) -> Result<(), ToolError>
    requires { IsSpaceBits bits }
{
    let mut text = String::new(rt.alloc());
    explain_all(&mut text, words, bits)?;
    print(rt, text.as_str())
}

/// Does a task, with standard output on a terminal that is coloured or elsewhere, and returns whether something was found.
/// What is told of progress is taken away before the answer is written.
fn perform<T: AllocGlobal + Input + Print + Files + Threads + Sync, C: Clock, E: Write + Drop>(
    rt: &T,
    task: &Task,
    is_terminal: bool,
    progress: &mut Progress<'_, C, E>,
) -> Result<bool, ToolError>
    requires { IsServed task.now }
{
    match task {
        Task::Explain { words, bits } => print_explained(rt, words, *bits)?,
        Task::Tell(text) => print(rt, text.as_str())?,
        Task::Compare {
            trace,
            answers,
            at,
            options,
            color,
        } => {
            let (trace, answers) = (trace.as_str(), answers.as_str());
            let (text, found) = compared(rt, trace, answers, *at, *options, progress)?;
            progress.end();
            print_painted(rt, &text, color.is_colored(is_terminal))?;
            return Ok(found != Compared::Same);
        }
        Task::Show { trace, view, color } => {
            let text = shown(rt, trace.as_str(), view, progress)?;
            progress.end();
            let is_text = matches!(view.form, Form::Text | Form::Diff);
            print_painted(
                rt,
                text.as_bytes(),
                is_text && color.is_colored(is_terminal),
            )?;
        }
        Task::Audit { trace, at } => {
            let audit = audited(rt, trace.as_str(), *at, progress)?;
            progress.end();
            print_painted(rt, &audit, false)?;
        }
        Task::Sentences { trace, at, most } => {
            let excerpt = Excerpt {
                at: *at,
                most: *most,
            };
            let text = explained(rt, trace.as_str(), &excerpt, progress)?;
            progress.end();
            print(rt, text.as_str())?;
        }
        Task::Why {
            trace,
            question,
            color,
        } => {
            let text = answered(rt, trace.as_str(), question, progress)?;
            progress.end();
            print_painted(rt, text.as_bytes(), color.is_colored(is_terminal))?;
        }
        Task::Random(plan) => write_planned(rt, plan, progress)?,
        Task::Check { trace, most } => return check_named(rt, trace.as_str(), *most, progress),
    }
    Ok(false)
}

/// Whether a command writes lines while it works, so that on one terminal progress would stand between them.
fn writes_on_the_way(command: &Result<Task, TaskError>) -> bool {
    matches!(command, Ok(Task::Check { .. } | Task::Random(_)))
}

/// Whether a terminal knows no escape sequences: `TERM` is `dumb`.
fn is_dumb(rt: &(impl AllocGlobal + Env)) -> bool {
    match env::var(rt, "TERM") {
        Ok(name) => name.as_str() == "dumb",
        Err(_) => false,
    }
}

/// Whether a terminal is to be coloured: `NO_COLOR` is not set, or empty, and `TERM` is not `dumb`.
fn takes_color(rt: &(impl AllocGlobal + Env)) -> bool {
    match env::var(rt, "NO_COLOR") {
        Ok(text) if !text.is_empty() => false,
        _ => !is_dumb(rt),
    }
}

fn main(rt: HostRuntime) -> ExitCode {
    let is_terminal = rt.stdout().is_terminal() && takes_color(&rt);
    let command = read_command_line(&rt);
    let is_between = rt.stdout().is_terminal() && writes_on_the_way(&command);
    let tells = rt.stderr().is_terminal() && !is_dumb(&rt) && !is_between;
    let mut progress = Progress::new(&rt, rt.stderr(), tells, false);
    let outcome = match command {
        Ok(task) => perform(&rt, &task, is_terminal, &mut progress),
        Err(TaskError::NoMemory) => Err(ToolError::NoMemory),
        Err(TaskError::Help(text)) => print(&rt, text.as_str()).map(|_| false),
        Err(TaskError::Refused(text)) => {
            // Where standard error cannot be written, the status still tells.
            let _ = Std::new(rt.stderr()).write_all(text.as_bytes());
            return ExitCode::from(2);
        }
    };
    progress.end();
    match outcome {
        Ok(found) => ExitCode::from(u8::from(found)),
        Err(error) => {
            let (line, status) = told(&error);
            let _ = Std::new(rt.stderr()).write_all(line);
            ExitCode::from(status)
        }
    }
}
