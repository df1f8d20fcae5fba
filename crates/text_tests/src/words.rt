use command_line::{Command, Request, Unasked, words_of};
use hs_base::Memory;
use std::alloc::Global;

/// The words of a line, cut at blanks.
fn words_in(alloc: Global, line: &str) -> Result<Vec<String>, Memory> {
    let mut words = Vec::new(alloc);
    for word in line.split(' ') {
        words.push(String::from_str(alloc, word)?)?;
    }
    Ok(words)
}

fn asked(alloc: Global, line: &str) -> Result<Request, Unasked> {
    words_of(alloc, words_in(alloc, line)?.as_slice())
}

/// Whether the line asks for that.
fn asks(alloc: Global, line: &str, request: Request) -> bool {
    match asked(alloc, line) {
        Ok(given) => given == request,
        Err(_) => false,
    }
}

#[test]
fn lines_that_are_read(rt: HostRuntime) {
    let alloc = rt.alloc();
    let plain = Request {
        command: Command::Print,
        budget: 100_000,
        seed: None,
        size: 40,
    };
    let seeded = Request {
        seed: Some(7),
        ..plain
    };
    let full = Request {
        command: Command::Drill,
        budget: 1_000_000,
        seed: Some(9_999_999_999_999_999_999),
        size: 1_000,
    };
    assert!(rt; asks(alloc, "print", plain));
    assert!(rt; asks(alloc, "print --", plain));
    assert!(rt; asks(alloc, "print --seed 007", seeded));
    assert!(rt; asks(alloc, "--seed 007 print", seeded));
    assert!(rt; asks(alloc, "--budget=5 -- print", Request { budget: 5, ..plain }));
    let line = "--size 1000 drill --seed=9999999999999999999 --budget 1000000";
    assert!(rt; asks(alloc, line, full));
}

/// Whether the line asks for nothing.
fn is_refused(alloc: Global, line: &str) -> bool {
    matches!(asked(alloc, line), Err(Unasked::Usage))
}

#[test]
fn lines_that_are_refused(rt: HostRuntime) {
    let lines = [
        "fly --budget 0",
        "fly --seed 1 --seed 2",
        "fly sim",
        "--size=x drill",
        "",
        "print --size 0",
        "print extra",
        "--",
        "-x",
        "print --budget",
        "--budget -5 print",
        "--budget -- print",
        "print -- --size 5",
        "--help",
        "-h",
        "help",
        "--version",
        "print --calm",
        "print --size 1001",
        "print --budget 1000001",
        "print --seed 10000000000000000000",
        "print --seed +7",
        "print --seed=",
        "--bud 5 print",
    ];
    for line in lines {
        assert!(rt; is_refused(rt.alloc(), line), "{line}");
    }
    let none = words_of(rt.alloc(), &[]);
    assert!(rt; matches!(none, Err(Unasked::Usage)));
}
