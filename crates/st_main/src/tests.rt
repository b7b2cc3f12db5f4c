//! Whole calls over memory: what words are taken, and what each command comes to.
use crate::exit::Exit;
use crate::helpers::{come_slowly_to, come_to, surely_prints, words};
use crate::programs::{
    CANONICAL, CUT, DEEP, EMPTY, FIB, FORKED, KILLED, KIND, LATE, LEAF, LISTING, LOAD, MANY, PUT,
    RACE, SLOT, SPILL, STUCK, far, with_sixth_line,
};
use st_base::limits::LimitKind;
use std::alloc::{AllocError, Global};
use std::test::Fail;

const USAGE: &[u8] = b"usage: st_main COMMAND [OPTIONS] FILE...\n";

#[test]
fn words_are_taken_or_not(rt: HostRuntime) -> Result<(), Fail> {
    let alloc = rt.alloc();
    let no_main: (Exit, &[u8], &[u8]) = (Exit::Refused, b"", b"t.s:1: F1 NoMain\n");
    let usage: (Exit, &[u8], &[u8]) = (Exit::Usage, b"", USAGE);
    let lists: [(&str, &[&str], bool); 29] = [
        ("run", &["t.s"], true),
        ("run", &["--workers", "1", "t.s"], true),
        ("run", &["--workers=1", "t.s"], true),
        ("run", &["t.s", "--workers", "01"], true),
        (
            "run",
            &[
                "--stack",
                "1024",
                "--cells=65536",
                "--steps",
                "1099511627776",
                "t.s",
            ],
            true,
        ),
        ("plain", &["t.s"], true),
        ("plain", &["--cells", "16384", "t.s"], true),
        ("check", &["t.s"], true),
        ("post", &["t.s"], true),
        ("run", &[], false),
        ("plain", &[], false),
        ("run", &["--workers", "17", "t.s"], false),
        ("run", &["--workers", "0", "t.s"], false),
        ("run", &["--workers", "2", "--workers", "2", "t.s"], false),
        ("run", &["--workers", "1", "--workers", "1", "t.s"], false),
        ("sim", &["--workers", "2", "--schedule", "02", "t.s"], false),
        ("run", &["--", "t.s"], false),
        ("run", &["-t.s"], false),
        ("run", &["--help"], false),
        ("run", &["--stack", "1000", "t.s"], false),
        ("run", &["--stack", "1032", "t.s"], false),
        ("run", &["--cells", "15", "t.s"], false),
        ("run", &["--steps", "0", "t.s"], false),
        ("plain", &["--workers", "1", "t.s"], false),
        ("check", &["--cells", "16", "t.s"], false),
        // these are not built yet
        ("run", &["--workers", "2", "t.s"], false),
        ("sim", &["t.s"], false),
        ("gen", &["--number", "7"], false),
        ("", &[], false),
    ];
    for (command, others, is_taken) in lists {
        let list = words(alloc, command, others)?;
        let want = if is_taken { no_main } else { usage };
        assert!(rt;
            come_to(&rt, alloc, &list, &[("t.s", b"")], b"", (0, 0, 0), want)?,
            "{command} {others:?}"
        );
    }
    assert!(rt; come_to(&rt, alloc, &[], &[("t.s", b"")], b"", (0, 0, 0), usage)?);
    Ok(())
}

#[test]
fn exits_have_their_statuses(rt: HostRuntime) -> Result<(), Fail> {
    let exits = [
        Exit::Done,
        Exit::Usage,
        Exit::Refused,
        Exit::Trap,
        Exit::Deadlock,
        Exit::Limit(LimitKind::Input),
        Exit::ReadFault,
        Exit::WriteFault,
        Exit::OutOfMemory,
        Exit::Waits,
    ];
    let mut status = 0;
    for exit in exits {
        assert!(rt; exit.status() == status);
        status = exit.status().saturating_add(1);
    }
    Ok(())
}

#[test]
fn units_are_checked_and_posted(rt: HostRuntime) -> Result<(), Fail> {
    let alloc = rt.alloc();
    let long = vec![in alloc; b'\n'; 1_048_577]?;
    let beyond = far(alloc, 1014)?;
    let rows: [(&str, &[&str], &[u8], (Exit, &[u8], &[u8])); 8] = [
        (
            "check",
            &["leaf.s"],
            LEAF.as_bytes(),
            (Exit::Refused, b"", b"leaf.s:3: F2 Prologue\n"),
        ),
        (
            "check",
            &["slot.s"],
            SLOT.as_bytes(),
            (Exit::Refused, b"", b"slot.s:10: F11 UndefinedRead\n"),
        ),
        (
            "check",
            &["killed.s"],
            KILLED.as_bytes(),
            (Exit::Refused, b"", b"killed.s:8: F11 UndefinedRead\n"),
        ),
        (
            "check",
            &["forked.s"],
            FORKED.as_bytes(),
            (Exit::Refused, b"", b"forked.s:9: F11 UndefinedRead\n"),
        ),
        // no file behind the limit is read
        (
            "check",
            &["a.s", "b.s"],
            long.as_slice(),
            (Exit::Refused, b"", b"a.s:1: E8 TooLarge\n"),
        ),
        // a file that is named twice is read again
        (
            "check",
            &["empty.s", "empty.s"],
            EMPTY.as_bytes(),
            (Exit::Refused, b"", b"empty.s:1: E6 DoubleLabel\n"),
        ),
        (
            "post",
            &["empty.s"],
            EMPTY.as_bytes(),
            (Exit::Done, LISTING.as_bytes(), b""),
        ),
        (
            "post",
            &["far.s"],
            beyond.as_slice(),
            (Exit::Refused, b"", b"far.s:7: L1 BranchRange 4096\n"),
        ),
    ];
    for (command, names, text, want) in rows {
        let list = words(alloc, command, names)?;
        let name = names.first().map_or("", |name| *name);
        assert!(rt;
            come_to(&rt, alloc, &list, &[(name, text)], b"", (0, 0, 0), want)?,
            "{command} {name}"
        );
    }
    let mut names = ["none.s"; 64];
    names[63] = "empty.s";
    let list = words(alloc, "check", &names)?;
    let held: [(&str, &[u8]); 2] = [("none.s", b""), ("empty.s", EMPTY.as_bytes())];
    let want = (Exit::Done, CANONICAL.as_bytes(), b"".as_slice());
    assert!(rt; come_to(&rt, alloc, &list, &held, b"", (0, 0, 0), want)?);
    Ok(())
}

#[test]
fn programs_run_over_what_never_fails(rt: HostRuntime) -> Result<(), Fail> {
    let alloc = rt.alloc();
    let near = far(alloc, 1013)?;
    let held: [(&str, &[u8]); 4] = [
        ("fib.s", FIB.as_bytes()),
        ("put.s", PUT.as_bytes()),
        ("empty.s", EMPTY.as_bytes()),
        ("far.s", near.as_slice()),
    ];
    let rows: [(&str, &[&str], Option<&[u8]>); 5] = [
        ("run", &["fib.s", "put.s"], Some(b"55\n")),
        ("run", &["empty.s"], Some(b"")),
        ("check", &["empty.s"], Some(CANONICAL.as_bytes())),
        ("post", &["empty.s"], Some(LISTING.as_bytes())),
        ("post", &["far.s"], None),
    ];
    for (command, names, printed) in rows {
        let list = words(alloc, command, names)?;
        assert!(rt;
            surely_prints(&rt, alloc, &list, &held, b"10", printed)?,
            "{command} {names:?}"
        );
    }
    Ok(())
}

#[test]
fn forks_run_in_two_files(rt: HostRuntime) -> Result<(), Fail> {
    let alloc = rt.alloc();
    let held: [(&str, &[u8]); 2] = [("fib.s", FIB.as_bytes()), ("put.s", PUT.as_bytes())];
    let lists: [(&str, &[&str]); 5] = [
        ("run", &["fib.s", "put.s"]),
        ("run", &["--workers", "1", "fib.s", "put.s"]),
        ("run", &["fib.s", "--workers=1", "put.s"]),
        ("plain", &["fib.s", "put.s"]),
        ("plain", &["--stack", "1024", "fib.s", "put.s"]),
    ];
    for (command, others) in lists {
        let list = words(alloc, command, others)?;
        let want = (Exit::Done, b"55\n".as_slice(), b"".as_slice());
        assert!(rt;
            come_to(&rt, alloc, &list, &held, b"10", (0, 0, 0), want)?,
            "{command} {others:?}"
        );
    }
    Ok(())
}

#[test]
fn run_and_plain_end_alike(rt: HostRuntime) -> Result<(), Fail> {
    let alloc = rt.alloc();
    let done: (Exit, &[u8], &[u8]) = (Exit::Done, b"", b"");
    let bytes = [b'x'; 63];
    let range = with_sixth_line(alloc, "addi a0,a0,2048")?;
    let operand = with_sixth_line(alloc, "addi a0,a0,")?;
    let unknown = with_sixth_line(alloc, "frobs a0")?;
    let near = far(alloc, 1013)?;
    let beyond = far(alloc, 1014)?;
    let cut = EMPTY.as_bytes();
    let cut = &cut[..cut.len().saturating_sub(1)];
    let stack = LimitKind::Stack {
        worker: 0,
        frame: 16,
    };
    let rows: [(&[&str], &str, &[u8], &[u8], (Exit, &[u8], &[u8])); 21] = [
        (&[], "empty.s", EMPTY.as_bytes(), b"", done),
        (&[], "empty.s", cut, b"", done),
        (&["--steps", "2"], "empty.s", EMPTY.as_bytes(), b"", done),
        (
            &["--steps", "1"],
            "empty.s",
            EMPTY.as_bytes(),
            b"",
            (
                Exit::Limit(LimitKind::Step { worker: 0 }),
                b"",
                b"limit Step worker 0\n",
            ),
        ),
        (
            &[],
            "cut.s",
            CUT.as_bytes(),
            b"",
            (Exit::Trap, b"A", b"cut.s:24: trap Abort in thread [0]\n"),
        ),
        (
            &[],
            "race.s",
            RACE.as_bytes(),
            b"",
            (Exit::Trap, b"", b"race.s:26: trap Abort in thread [0]\n"),
        ),
        (
            &[],
            "kind.s",
            KIND.as_bytes(),
            b"",
            (
                Exit::Trap,
                b"",
                b"kind.s:8: trap WrongHandle in thread []\n",
            ),
        ),
        (
            &[],
            "stuck.s",
            STUCK.as_bytes(),
            b"",
            (Exit::Waits, b"", b"stuck.s:14: waits in thread []\n"),
        ),
        (
            &[],
            "late.s",
            LATE.as_bytes(),
            b"",
            (Exit::Waits, b"", b"late.s:30: waits in thread [0]\n"),
        ),
        (
            &[],
            "leaf.s",
            LEAF.as_bytes(),
            b"input",
            (Exit::Refused, b"", b"leaf.s:3: F2 Prologue\n"),
        ),
        (
            &["--stack", "1024"],
            "deep.s",
            DEEP.as_bytes(),
            &bytes[..62],
            done,
        ),
        (
            &["--stack", "1024"],
            "deep.s",
            DEEP.as_bytes(),
            &bytes,
            (Exit::Limit(stack), b"", b"limit Stack worker 0 frame 16\n"),
        ),
        (
            &["--cells", "16"],
            "many.s",
            MANY.as_bytes(),
            &bytes[..15],
            done,
        ),
        (
            &["--cells", "16"],
            "many.s",
            MANY.as_bytes(),
            &bytes[..16],
            (
                Exit::Limit(LimitKind::Cell { cells: 16 }),
                b"",
                b"limit Cell 16\n",
            ),
        ),
        (
            &[],
            "load.s",
            LOAD.as_bytes(),
            b"",
            (Exit::Trap, b"", b"load.s:7: trap LoadRange in thread []\n"),
        ),
        (&[], "load.s", LOAD.as_bytes(), b"x", done),
        (
            &[],
            "empty.s",
            range.as_bytes(),
            b"",
            (Exit::Refused, b"", b"empty.s:6: E5 ImmRange\n"),
        ),
        (
            &[],
            "empty.s",
            operand.as_bytes(),
            b"",
            (Exit::Refused, b"", b"empty.s:6: E4 BadOperand\n"),
        ),
        (
            &[],
            "empty.s",
            unknown.as_bytes(),
            b"",
            (Exit::Refused, b"", b"empty.s:6: E3 UnknownName\n"),
        ),
        (&[], "far.s", near.as_slice(), b"", done),
        (
            &[],
            "far.s",
            beyond.as_slice(),
            b"",
            (Exit::Refused, b"", b"far.s:7: L1 BranchRange 4096\n"),
        ),
    ];
    for (options, name, text, input, want) in rows {
        for command in ["run", "plain"] {
            let mut list = words(alloc, command, options)?;
            list.push(String::from_str(alloc, name)?)?;
            assert!(rt;
                come_to(&rt, alloc, &list, &[(name, text)], input, (0, 0, 0), want)?,
                "{command} {name} {options:?}"
            );
        }
    }
    Ok(())
}

/// So many bytes of one kind. What they are, no proof has to know.
fn filled(alloc: Global, byte: u8, count: usize) -> Result<Vec<u8>, AllocError> {
    vec![in alloc; byte; count]
}

#[test]
fn the_output_ends_at_its_limit(rt: HostRuntime) -> Result<(), Fail> {
    let alloc = rt.alloc();
    let bytes = filled(alloc, b'x', 1_048_577)?;
    let printed = filled(alloc, b'.', 1_048_576)?;
    let printed = printed.as_slice();
    let out = Exit::Limit(LimitKind::Out);
    let rows: [(&str, &str, usize, (Exit, &[u8], &[u8])); 2] = [
        ("spill.s", SPILL, 1_048_576, (Exit::Done, printed, b"")),
        ("spill.s", SPILL, 1_048_577, (out, printed, b"limit Out\n")),
    ];
    for (name, text, count, want) in rows {
        let list = words(alloc, "run", &[name])?;
        let count = count.min(bytes.len());
        let held = [(name, text.as_bytes())];
        assert!(rt;
            come_to(&rt, alloc, &list, &held, &bytes[..count], (0, 0, 0), want)?,
            "{name} {count}"
        );
    }
    Ok(())
}

#[test]
fn the_input_ends_at_its_limit(rt: HostRuntime) -> Result<(), Fail> {
    let alloc = rt.alloc();
    let bytes = filled(alloc, b'x', 16_777_217)?;
    let input = Exit::Limit(LimitKind::Input);
    let rows: [(&str, &str, usize, (Exit, &[u8], &[u8])); 2] = [
        ("empty.s", EMPTY, 16_777_216, (Exit::Done, b"", b"")),
        ("empty.s", EMPTY, 16_777_217, (input, b"", b"limit Input\n")),
    ];
    for (name, text, count, want) in rows {
        let list = words(alloc, "run", &[name])?;
        let count = count.min(bytes.len());
        let held = [(name, text.as_bytes())];
        assert!(rt;
            come_to(&rt, alloc, &list, &held, &bytes[..count], (0, 0, 0), want)?,
            "{name} {count}"
        );
    }
    Ok(())
}

#[test]
fn what_fails_outside_is_told(rt: HostRuntime) -> Result<(), Fail> {
    let alloc = rt.alloc();
    let held: [(&str, &[u8]); 2] = [("fib.s", FIB.as_bytes()), ("put.s", PUT.as_bytes())];
    let first: (Exit, &[u8], &[u8]) = (Exit::ReadFault, b"", b"read fault fib.s\n");
    let second: (Exit, &[u8], &[u8]) = (Exit::ReadFault, b"", b"read fault put.s\n");
    let input: (Exit, &[u8], &[u8]) = (Exit::ReadFault, b"", b"read fault input\n");
    let done: (Exit, &[u8], &[u8]) = (Exit::Done, b"55\n", b"");
    // each file, and the input, is read to its end by two calls
    let rows: [((u64, u64, u64), (Exit, &[u8], &[u8])); 11] = [
        ((0, 0, 0), done),
        ((1, 0, 0), first),
        ((2, 0, 0), first),
        ((3, 0, 0), second),
        ((4, 0, 0), second),
        ((0, 1, 0), input),
        ((0, 2, 0), input),
        ((0, 3, 0), done),
        ((0, 0, 1), (Exit::WriteFault, b"", b"write fault\n")),
        ((0, 0, 2), (Exit::WriteFault, b"5", b"write fault\n")),
        ((0, 0, 3), (Exit::WriteFault, b"55", b"write fault\n")),
    ];
    for (fails, want) in rows {
        for command in ["run", "plain"] {
            let list = words(alloc, command, &["fib.s", "put.s"])?;
            assert!(rt;
                come_slowly_to(&rt, alloc, &list, &held, b"10", fails, 100, want)?,
                "{command} {fails:?}"
            );
        }
    }
    // how the second output fares changes nothing else
    let list = words(alloc, "run", &["t.s"])?;
    let want = (Exit::Refused, b"".as_slice(), b"t.s:1".as_slice());
    assert!(rt; come_slowly_to(&rt, alloc, &list, &[("t.s", b"")], b"", (0, 0, 0), 5, want)?);
    Ok(())
}

#[test]
fn refusals_have_their_order(rt: HostRuntime) -> Result<(), Fail> {
    let alloc = rt.alloc();
    let write: (Exit, &[u8], &[u8]) = (Exit::WriteFault, b"", b"write fault\n");
    let second: (Exit, &[u8], &[u8]) = (Exit::ReadFault, b"", b"read fault b.s\n");
    let rows: [(&str, &[&str], &[u8], (u64, u64, u64), (Exit, &[u8], &[u8])); 9] = [
        // the third read is the second file's first
        (
            "check",
            &["a.s", "b.s"],
            EMPTY.as_bytes(),
            (3, 0, 0),
            second,
        ),
        ("run", &["a.s", "b.s"], EMPTY.as_bytes(), (0, 0, 0), second),
        ("check", &["a.s"], EMPTY.as_bytes(), (0, 0, 1), write),
        ("post", &["a.s"], EMPTY.as_bytes(), (0, 0, 1), write),
        ("run", &["cut.s"], CUT.as_bytes(), (0, 0, 1), write),
        // nothing is put where nothing is printed
        (
            "run",
            &["stuck.s"],
            STUCK.as_bytes(),
            (0, 0, 1),
            (Exit::Waits, b"", b"stuck.s:14: waits in thread []\n"),
        ),
        // texts are refused before the input is read
        (
            "run",
            &["t.s"],
            b"frobs\n",
            (0, 1, 0),
            (Exit::Refused, b"", b"t.s:1: E3 UnknownName\n"),
        ),
        (
            "run",
            &["t.s"],
            b"",
            (0, 1, 0),
            (Exit::Refused, b"", b"t.s:1: F1 NoMain\n"),
        ),
        (
            "run",
            &["t.s"],
            EMPTY.as_bytes(),
            (0, 1, 0),
            (Exit::ReadFault, b"", b"read fault input\n"),
        ),
    ];
    for (command, names, text, fails, want) in rows {
        let list = words(alloc, command, names)?;
        let name = names.first().map_or("", |name| *name);
        assert!(rt;
            come_to(&rt, alloc, &list, &[(name, text)], b"", fails, want)?,
            "{command} {name} {fails:?}"
        );
    }
    Ok(())
}
