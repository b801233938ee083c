//! l4map: replays a trace of calls on a mapping database, and prints the replies and an audit.
#![tactic(auto)]

ghost use Rattle.std.specs.Prelude.{IfOk};
ghost use Rattle.replay.specs.Options.{AreServed};

use l4map_cli::{OptionsError, parse, status, tell};
use progress::Progress;
use replay::{Options, RunError, Watch, run};
use std::alloc::{AllocError, Global};
use std::env::Env;
use std::io::{BufWriter, ErrorKind, IsTerminal};
use std::process::ExitCode;
use std::sync::Wait;
use std::thread::Threads;
use std::{env, io};
use trace::{Sink, Std};

/// The largest block that the C library is to keep when it is given back: glibc goes no higher by itself than 32 MiB.
const KEPT_BLOCK: usize = 31 << 20;

/// Reads the program's command line.
// (It is not compiled into `main`, whose frame would hold all that `clap` wants of the stack as long as the program runs.)
#[inline(never)]
fn read_command_line(rt: &(impl AllocGlobal + Env)) -> Result<Options, OptionsError>
    ensures { IfOk result AreServed }
{
    let alloc = rt.alloc();
    let arguments = match env::args(rt) {
        Ok(arguments) => arguments,
        Err(error) if error.kind() == ErrorKind::InvalidData => {
            return Err(OptionsError::Refused(String::from_str(
                alloc,
                "error: an argument is not valid UTF-8\n",
            )?));
        }
        Err(_) => return Err(OptionsError::NoMemory),
    };
    let words: Vec<String> = arguments.collect(alloc)?;
    let mut texts = Vec::with_capacity(alloc, words.len())?;
    for word in &words {
        texts.push(word.as_str()).map_err(AllocError::from)?;
    }
    parse(alloc, &texts)
}

/// Takes a large block and gives it back, untouched. From then on glibc keeps blocks up to that size for the program's next
/// calls; before, each goes back to the system, which has to clear its pages when they are taken again. It is a matter of speed alone,
/// so where the block is refused nothing is lost.
fn keep_memory(alloc: Global) {
    let _ = Vec::<u8>::with_capacity(alloc, KEPT_BLOCK);
}

/// Replays the trace on standard input to standard output, in writes as large as the watch has them.
fn replay_input<V: Watch>(
    rt: &(impl AllocGlobal + Input + Print + Threads + Wait + Sync),
    options: &Options,
    watch: &mut V,
) -> Result<(), RunError>
    requires { AreServed options.now }
{
    keep_memory(rt.alloc());
    let Ok(output) = BufWriter::with_capacity(rt.alloc(), watch.block(), io::writer(rt)) else {
        return Err(RunError::NoMemory(0));
    };
    let mut reader = Std::new(rt.reader());
    let mut writer = Std::new(output);
    run(rt, &mut reader, &mut writer, options, watch)?;
    Ok(())
}

fn main(rt: HostRuntime) -> ExitCode {
    // Replies are shown as they come; where they go elsewhere, standard error tells how far a long run has come.
    let shows_replies = rt.stdout().is_terminal();
    let tells = rt.stderr().is_terminal() && !shows_replies;
    let mut progress = Progress::new(&rt, rt.stderr(), tells, shows_replies);
    let outcome = match read_command_line(&rt) {
        Ok(options) => replay_input(&rt, &options, &mut progress),
        Err(OptionsError::NoMemory) => Err(RunError::NoMemory(0)),
        Err(OptionsError::Help(text)) => Std::new(io::writer(&rt))
            .write_all(text.as_bytes())
            .map_err(|_| RunError::WriteFailed),
        Err(OptionsError::Refused(text)) => {
            // Where standard error cannot be written, the status still tells.
            let _ = Std::new(rt.stderr()).write_all(text.as_bytes());
            return ExitCode::from(1);
        }
    };
    progress.end();
    match outcome {
        Ok(()) => ExitCode::SUCCESS,
        Err(error) => {
            let _ = tell(error, &mut Std::new(rt.stderr()));
            ExitCode::from(status(error))
        }
    }
}
