//! The command line, and what is told of errors.

use crate::assertions::{assert_equal, assert_holds};
use l4map_cli::{OptionsError, parse, status, tell};
use replay::{Options, RunError};
use std::test::Fail;
use trace::Std;

const DEFAULTS: Options = Options {
    workers: 4,
    piece_length: 256,
    plain: false,
};

const PLAIN: Options = Options {
    workers: 4,
    piece_length: 256,
    plain: true,
};

#[test]
fn tells_each_error_by_its_line_and_status(rt: HostRuntime) -> Result<(), Fail> {
    let cases = [
        (RunError::BadHeader, "l4map: BadHeader\n", 2),
        (RunError::BadLimits, "l4map: BadLimits\n", 2),
        (RunError::NoMemory(0), "l4map: record 0: NoMemory\n", 3),
        (
            RunError::NoWorker(1907),
            "l4map: record 1907: NoWorker\n",
            3,
        ),
        (RunError::Unreadable, "l4map: Unreadable\n", 4),
        (RunError::WriteFailed, "l4map: WriteFailed\n", 4),
    ];
    for (error, line, number) in cases {
        let mut output = Std::new(Vec::new(rt.alloc()));
        tell(error, &mut output)
            .ok()
            .ok_or("a write to memory failed")?;
        let told = output.into_inner();
        assert_equal(&rt, told.as_slice(), line.as_bytes(), line);
        assert_equal(&rt, status(error), number, line);
    }
    Ok(())
}

#[test]
fn reads_the_command_line(rt: HostRuntime) -> Result<(), Fail> {
    let alloc = rt.alloc();
    assert_equal(
        &rt,
        parse(alloc, &["l4map"]).ok(),
        Some(DEFAULTS),
        "nothing",
    );
    assert_equal(
        &rt,
        parse(alloc, &["l4map", "--plain"]).ok(),
        Some(PLAIN),
        "--plain",
    );
    let most = Options {
        workers: 64,
        piece_length: 65536,
        plain: false,
    };
    let words = ["l4map", "--workers", "64", "--piece=65536"];
    assert_equal(&rt, parse(alloc, &words).ok(), Some(most), "the most");
    let others = Options {
        workers: 3,
        piece_length: 5,
        plain: true,
    };
    let words = ["l4map", "--piece", "5", "--plain", "--workers", "3"];
    assert_equal(&rt, parse(alloc, &words).ok(), Some(others), "others");
    let least = Options {
        workers: 1,
        piece_length: 1,
        plain: false,
    };
    let words = ["l4map", "--workers=1", "--piece", "1"];
    assert_equal(&rt, parse(alloc, &words).ok(), Some(least), "the least");
    Ok(())
}

#[test]
fn refuses_what_is_no_option(rt: HostRuntime) {
    let lines = [
        ["l4map", "--workers=0"],
        ["l4map", "--workers=65"],
        ["l4map", "--workers=four"],
        ["l4map", "--workers="],
        ["l4map", "--piece=0"],
        ["l4map", "--piece=65537"],
        ["l4map", "--workers"],
        ["l4map", "--plain=yes"],
        ["l4map", "--fast"],
        ["l4map", "trace.csv"],
    ];
    for words in lines {
        let refused = parse(rt.alloc(), &words);
        let is_told = matches!(&refused, Err(OptionsError::Refused(text)) if !text.is_empty());
        assert_equal(&rt, (words, is_told), (words, true), "refused");
    }
}

#[test]
fn refuses_a_file_with_a_tip(rt: HostRuntime) {
    let tip = "  tip: a trace is read from standard input, as in 'l4map < trace.csv'\n";
    for (word, is_tipped) in [
        ("trace.csv", true),
        ("-", true),
        ("--fast", false),
        ("-w", false),
    ] {
        let refused = parse(rt.alloc(), &["l4map", word]);
        let is_told =
            matches!(&refused, Err(OptionsError::Refused(text)) if text.starts_with("error: unexpected argument '") && text.contains(tip) == is_tipped);
        assert_holds(&rt, is_told, word);
    }
}

#[test]
fn tells_help_and_version(rt: HostRuntime) {
    for words in [
        ["l4map", "--help"],
        ["l4map", "-h"],
        ["l4map", "--version"],
        ["l4map", "-V"],
    ] {
        let asked = parse(rt.alloc(), &words);
        let is_told =
            matches!(&asked, Err(OptionsError::Help(text)) if text.starts_with("l4map") || text.contains("Usage: l4map"));
        assert_equal(&rt, (words, is_told), (words, true), "told");
    }
}
