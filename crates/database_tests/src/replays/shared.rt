//! Traces worked by crews that share every phase, however small: they write what one worker writes.

ghost use Rattle.std.specs.Prelude.{◌≤◌};

use super::ONE_WORKER;
use super::worked::TRACES;
use crate::assertions::assert_equal;
use crew::{Crew, NoGate};
use replay::{NoWatch, RunError, run, run_by};
use std::env;
use std::io::Read;
use std::process::Abort;
use std::sync::Wait;
use std::test::Fail;
use std::thread::Threads;
use trace::Std;

const WORKERS: [usize; 3] = [1, 4, 64];

const LENGTHS: [usize; 4] = [1, 2, 7, 256];

/// What a crew writes that shares every phase.
fn shared_output(
    rt: &(impl Abort + AllocGlobal + Threads + Wait + Sync),
    input: &[u8],
    workers: usize,
    length: usize,
) -> Result<Vec<u8>, RunError>
    requires some { 1 ≤ workers }
    requires most { workers ≤ 64 }
    requires length { 1 ≤ length }
{
    let crew = Crew::new(rt, workers, length, &NoGate);
    let mut output = Std::new(Vec::new(rt.alloc()));
    run_by(
        rt,
        &mut Std::new(input),
        &mut output,
        false,
        &crew,
        &mut NoWatch,
    )?;
    Ok(output.into_inner())
}

/// Looks at what crews of each size write, with pieces of each length.
fn expect_shared(
    rt: &(impl Abort + AllocGlobal + Threads + Wait + Sync),
    input: &[u8],
    expected: &[u8],
) -> Result<(), RunError> {
    for workers in WORKERS {
        for length in LENGTHS {
            assert!(rt; 1 <= workers && workers <= 64 && 1 <= length);
            let written = shared_output(rt, input, workers, length)?;
            assert_equal(
                rt,
                written.as_slice(),
                expected,
                format_args!("{workers} workers, pieces of {length}"),
            );
        }
    }
    Ok(())
}

/// Crews write of a trace what one worker writes.
fn expect_same(
    rt: &(impl Abort + AllocGlobal + Threads + Wait + Sync),
    input: &[u8],
) -> Result<(), RunError> {
    let mut output = Std::new(Vec::new(rt.alloc()));
    run(
        rt,
        &mut Std::new(input),
        &mut output,
        &ONE_WORKER,
        &mut NoWatch,
    )?;
    let expected = output.into_inner();
    expect_shared(rt, input, &expected)
}

/// The worked traces; or that on standard input, where a word stands behind the test's name, as tests/workers.py gives it its
/// traces.
#[test]
fn crews_that_share_every_phase_write_what_one_worker_writes(rt: HostRuntime) -> Result<(), Fail> {
    if env::args(&rt)?.nth(2).is_some() {
        let mut input = Vec::new(rt.alloc());
        rt.reader().read_to_end(&mut input)?;
        expect_same(&rt, &input)?;
        println!(&rt;
            "{} crews wrote what one worker writes",
            WORKERS.len() * LENGTHS.len()
        )?;
        return Ok(());
    }
    for (input, _) in &TRACES {
        expect_same(&rt, input.as_bytes())?;
    }
    Ok(())
}

/// A page is read, not executed, and written.
const ACCESSES: &str =
    "l4map,1,2,18,1\nsend,0,1,10,3008,c6\naccess,1,3000,r\naccess,1,3ffc,x\naccess,1,3004,w\n";

const ACCESSES_OUTPUT: &str =
    "1 send absent=0 norights=0 origin=0 lost=0 extended=0 linked=1\n2 access ok\n3 access fault\n4 access ok\n0,0,0,rwx,---,-\n1,3,0,rw-,RW-,0:0\nend 4 0\n";

/// Calls of every kind, in which each phase has pieces.
const CALLS: &str =
    "l4map,2,3,18,4\nsend,0,1,10,8,c7\nsend,1,2,10,8,c5\naccess,2,0,r\naccess,1,0,w\nunmap,0,0,d2\nsend,0,2,10,a,10c7\nclear,1\n";

const CALLS_OUTPUT: &str =
    "1 send absent=0 norights=0 origin=0 lost=0 extended=0 linked=1\n2 send absent=0 norights=0 origin=0 lost=0 extended=0 linked=1\n3 access ok\n4 access ok\n5 unmap 000000d6\n6 send absent=0 norights=0 origin=0 lost=0 extended=0 linked=1\n7 clear 00000010\n0,0,0,rwx,---,-\n0,2,2,rwx,---,-\n0,3,3,rwx,---,-\n2,0,1,rwx,---,-\nend 7 0\n";

/// What three workers write of a trace with pieces of one.
fn expect_of_three(
    rt: &(impl Abort + AllocGlobal + Threads + Wait + Sync),
    input: &str,
    expected: &str,
) -> Result<(), RunError> {
    let written = shared_output(rt, input.as_bytes(), 3, 1)?;
    assert_equal(rt, written.as_slice(), expected.as_bytes(), input);
    Ok(())
}

#[test]
fn three_workers_make_accesses_of_one_page(rt: HostRuntime) -> Result<(), Fail> {
    expect_of_three(&rt, ACCESSES, ACCESSES_OUTPUT)?;
    Ok(())
}

/// With ample memory and threads this is a run that ends well. Where an allocation or a thread is refused, it is told by
/// its error.
#[test]
fn three_workers_work_calls_of_every_kind(rt: HostRuntime) -> Result<(), Fail> {
    expect_of_three(&rt, CALLS, CALLS_OUTPUT)?;
    Ok(())
}
