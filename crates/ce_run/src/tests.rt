//! Whole scripts, each through a call that the program makes, over memory.
ghost use Rattle.std.specs.Prelude.{◌≤◌};

mod rows;

use super::*;
use ce_gate::OpenGate;
use ce_io::{MemSink, MemSource, PIECE};
use ce_model::{HOME_BLOCKS, SCRIPT_LIMIT, WINDOW_BASE, WINDOW_SIZE};
use rows::{
    ANSWERS, DEAD, ENDLESS, GONE, HELLO, HELLO_REPORT, HELLO_SCRIPT, HELLO_SPAWN, HELLO_START,
    HELLO_WORDS, IMAGE_AS_BYTES, JUMPS, LONGEST_POLLER, NO_FIT, NO_STATEMENTS, NO_USERS,
    NOT_CONTIGUOUS, NOTHING_ALLOWED, NUMBERS, REFUSED_COMMANDS, RENAMING, Row, SIZES, STOP_CAUSES,
    TIE, TURN_LIMIT, UNBORN, USED_AGAIN, WINDOWS, XMSEND,
};
use std::alloc::Global;
use std::io;
use std::process::Abort;
use std::test::Fail;
use std::thread::Threads;

/// What a line of words does to a script.
#[derive(Drop)]
struct Outcome {
    status: u8,
    report_text: Vec<u8>,
    fault_line: Vec<u8>,
}

/// How the memory behaves: which calls fail, and how many bytes a call moves at most.
#[derive(Clone, Copy)]
struct Ends<'a> {
    failing_read: &'a [u64],
    failing_write: &'a [u64],
    greatest_piece: usize,
}

const SOUND: Ends<'static> = Ends {
    failing_read: &[],
    failing_write: &[],
    greatest_piece: PIECE,
};

/// The whole program but for its `main`.
fn run_line<R: Threads + Sync>(
    rt: &R,
    alloc: Global,
    line: &[&str],
    script: &[u8],
    ends: Ends,
) -> Result<Outcome, Fail>
    requires { 1 ≤ ends.greatest_piece }
{
    let words = words_of(alloc, line)?;
    let bytes = Vec::from_slice(alloc, script)?;
    let reads = Vec::from_slice(alloc, ends.failing_read)?;
    let writes = Vec::from_slice(alloc, ends.failing_write)?;
    let mut source = MemSource::new(bytes, reads, ends.greatest_piece);
    let mut sink = memory_sink(alloc, writes, ends.greatest_piece)?;
    let mut errors = memory_sink(alloc, Vec::new(alloc), PIECE)?;
    let status = run_command(
        rt,
        alloc,
        Ok(words),
        &mut source,
        &mut sink,
        &mut errors,
        &OpenGate,
    );
    Ok(Outcome {
        status,
        report_text: Vec::from_slice(alloc, sink.bytes())?,
        fault_line: Vec::from_slice(alloc, errors.bytes())?,
    })
}

fn words_of(alloc: Global, line: &[&str]) -> Result<Vec<String>, Fail> {
    let mut words = Vec::new(alloc);
    for word in line {
        words.push(String::from_str(alloc, word)?)?;
    }
    Ok(words)
}

fn memory_sink(
    alloc: Global,
    failing_calls: Vec<u64>,
    greatest_piece: usize,
) -> Result<MemSink, Fail>
    requires { 1 ≤ greatest_piece }
{
    Ok(MemSink::new(alloc, 262_144, failing_calls, greatest_piece).map_err(|_| "no memory")?)
}

fn run_script<R: Threads + Sync>(rt: &R, alloc: Global, script: &str) -> Result<Outcome, Fail> {
    run_line(rt, alloc, &["--serial"], script.as_bytes(), SOUND)
}

/// Texts one behind the other, each so many times.
fn text(alloc: Global, parts: &[(&str, u32)]) -> Result<String, Fail> {
    let mut text = String::new(alloc);
    for (part, times) in parts {
        for _ in 0..*times {
            text.push_str(part)?;
        }
    }
    Ok(text)
}

/// The script of a row has the row's report.
fn holds<R: Threads + Sync + Abort>(rt: &R, alloc: Global, row: &Row) -> Result<(), Fail> {
    let script = row.script.concat(alloc)?;
    let report = row.report.concat(alloc)?;
    let outcome = run_script(rt, alloc, script.as_str())?;
    assert_eq!(rt; outcome.status, 0, "{}", row.title);
    assert_eq!(rt;
        outcome.report_text.as_slice(),
        report.as_bytes(),
        "{}",
        row.title
    );
    assert_eq!(rt; outcome.fault_line.len(), 0, "{}", row.title);
    Ok(())
}

/// Turns that are allowed, made, used up and shared.
#[test]
fn worked_turns(rt: HostRuntime) -> Result<(), Fail> {
    for row in [
        HELLO,
        NOTHING_ALLOWED,
        TIE,
        ENDLESS,
        TURN_LIMIT,
        LONGEST_POLLER,
    ] {
        holds(&rt, rt.alloc(), &row)?;
    }
    Ok(())
}

/// Blocks, windows and messages.
#[test]
fn worked_messages(rt: HostRuntime) -> Result<(), Fail> {
    for row in [GONE, SIZES, WINDOWS, XMSEND, UNBORN, DEAD] {
        holds(&rt, rt.alloc(), &row)?;
    }
    Ok(())
}

/// Cubes, and the numbers of their nodes.
#[test]
fn worked_cubes(rt: HostRuntime) -> Result<(), Fail> {
    for row in [NO_FIT, NOT_CONTIGUOUS, RENAMING, USED_AGAIN, NUMBERS] {
        holds(&rt, rt.alloc(), &row)?;
    }
    Ok(())
}

/// What commands and calls are answered, and why processes end.
#[test]
fn worked_answers(rt: HostRuntime) -> Result<(), Fail> {
    for row in [JUMPS, REFUSED_COMMANDS, STOP_CAUSES, ANSWERS] {
        holds(&rt, rt.alloc(), &row)?;
    }
    Ok(())
}

/// Scripts with hardly a statement, and an image of bytes.
#[test]
fn worked_texts(rt: HostRuntime) -> Result<(), Fail> {
    for row in [IMAGE_AS_BYTES, NO_STATEMENTS, NO_USERS] {
        holds(&rt, rt.alloc(), &row)?;
    }
    Ok(())
}

/// Both public calls, over a source and a sink that move a few bytes at a time.
#[test]
fn hello_by_both_calls(rt: HostRuntime) -> Result<(), Fail> {
    let alloc = rt.alloc();
    let script = HELLO_SCRIPT.concat(alloc)?;
    let report = HELLO_REPORT.concat(alloc)?;
    for through_top in [true, false] {
        let words = words_of(alloc, &["--serial"])?;
        let bytes = Vec::from_slice(alloc, script.as_bytes())?;
        let mut source = MemSource::new(bytes, Vec::new(alloc), 7);
        let mut sink = memory_sink(alloc, Vec::new(alloc), 7)?;
        let end = if through_top {
            top(
                &rt,
                alloc,
                words.as_slice(),
                &mut source,
                &mut sink,
                &OpenGate,
            )
        } else {
            serial_call(alloc, words.as_slice(), &mut source, &mut sink)
        };
        assert_eq!(rt; end.status, 0);
        assert_eq!(rt; sink.bytes(), report.as_bytes());
    }
    Ok(())
}

/// A process that polls is told 0 until the dispatches are used up.
#[test]
fn polling(rt: HostRuntime) -> Result<(), Fail> {
    let script =
        "machine 0\nimage poll asm\nloop: li a7, 6\necall\nj loop\nend\nuser alice\ngetcube 0\n\
        spawn poll 0 0\nrun 100\ndump 0 0\n";
    let head = "machine 0\nuser alice\ngetcube 0\n= granted mask 0 base 0\nspawn poll 0 0\n= ok\n\
        run 100\n= spent\ndump 0 0\n= polling\ncube 0 user alice dim 0 mask 0 base 0\n\
        host spawn 0 poll 0.0 ok\nhost arm 100\nnode 0 take 0 0 - start 0 poll\n";
    let tail = "node 0 take 1 0 0 spent\nhost look spent\nend\n";
    let poll = "node 0 take 1 0 0 poll 0\n";
    let outcome = run_script(&rt, rt.alloc(), script)?;
    let want = text(rt.alloc(), &[(head, 1), (poll, 99), (tail, 1)])?;
    assert_eq!(rt; outcome.status, 0);
    assert_eq!(rt; outcome.report_text.as_slice(), want.as_bytes());
    Ok(())
}

/// A host sends 32 messages, and then its store is empty.
#[test]
fn no_store(rt: HostRuntime) -> Result<(), Fail> {
    let alloc = rt.alloc();
    let script = text(
        alloc,
        &[("machine 0\nuser a\ngetcube 0\n", 1), ("send 0 7 -\n", 33)],
    )?;
    let head = "machine 0\nuser a\ngetcube 0\n= granted mask 0 base 0\n";
    let refused = "send 0 7 -\n= no store\ncube 0 user a dim 0 mask 0 base 0\n";
    let outcome = run_script(&rt, alloc, script.as_str())?;
    let mut want = text(
        alloc,
        &[(head, 1), ("send 0 7 -\n= ok\n", 32), (refused, 1)],
    )?;
    for index in 0..32 {
        let entry = format!(in alloc; "host send 0 {index} 0.7=host.{index} -\n")?;
        want.push_str(entry.as_str())?;
    }
    want.push_str("end\n")?;
    assert_eq!(rt; outcome.status, 0);
    assert_eq!(rt; outcome.report_text.as_slice(), want.as_bytes());
    Ok(())
}

/// A process takes all blocks of its node, each at the next window, and one more where it has freed
/// one.
#[test]
fn store(rt: HostRuntime) -> Result<(), Fail> {
    let alloc = rt.alloc();
    let script =
        "machine 0\nimage store asm\nli s0, 33\nagain: li a0, 16\nli a7, 1\necall\nli a7, 14\necall\n\
        addi s0, s0, -1\nbne s0, zero, again\nli a0, 0x80000000\nli a7, 2\necall\nli a0, 16\nli a7, 1\n\
        ecall\nli a7, 14\necall\nli a7, 13\necall\nend\nuser a\ngetcube 0\nspawn store 0 0\nrun 10\n";
    let head =
        "machine 0\nuser a\ngetcube 0\n= granted mask 0 base 0\nspawn store 0 0\n= ok\nrun 10\n= quiet\n\
        cube 0 user a dim 0 mask 0 base 0\nhost spawn 0 store 0.0 ok\nhost arm 10\n\
        node 0 take 0 0 - start 0 store\n";
    let tail =
        "node 0 note 0 0\nnode 0 note 0 2149580800\nnode 0 take 0 1 - idle\nhost look quiet\nend\n";
    let mut want = text(alloc, &[(head, 1)])?;
    for window in 0..HOME_BLOCKS {
        let address = WINDOW_BASE + WINDOW_SIZE * window;
        let entry = format!(in alloc; "node 0 note 0 {address}\n")?;
        want.push_str(entry.as_str())?;
    }
    want.push_str(tail)?;
    let outcome = run_script(&rt, alloc, script)?;
    assert_eq!(rt; outcome.status, 0);
    assert_eq!(rt; outcome.report_text.as_slice(), want.as_bytes());
    Ok(())
}

const LOAD_0: &str = "load 0\nu0 message 3.0 6f1a6f3c00000000\nu1 message 3.0 4250504700000000\n\
    u2 message 3.0 f91dcdd100000000\nu3 message 3.0 447af9aa00000000\n";

/// The load of 0, asked for in three ways.
#[test]
fn load(rt: HostRuntime) -> Result<(), Fail> {
    let lines: [&[&str]; 3] = [
        &["--load", "0", "--serial"],
        &["--serial", "--load", "0"],
        &["--serial", "--load=00"],
    ];
    for line in lines {
        let outcome = run_line(&rt, rt.alloc(), line, b"not read".as_slice(), SOUND)?;
        assert_eq!(rt; outcome.status, 0);
        assert_eq!(rt; outcome.report_text.as_slice(), LOAD_0.as_bytes());
    }
    Ok(())
}

/// Lines of words that are refused; those without `--serial` ask for threads, which aren't there
/// yet.
#[test]
fn usage(rt: HostRuntime) -> Result<(), Fail> {
    let lines: [&[&str]; 8] = [
        &["--fast"],
        &["--load", "4294967296"],
        &["--load", "4294967296", "--serial"],
        &["--serial", "--load"],
        &["--serial", "hello.ce"],
        &["--serial", "--serial"],
        &["--load", "0"],
        &[],
    ];
    let fault_line = b"ce: usage: ce [--serial] [--load N]\n".as_slice();
    let alloc = rt.alloc();
    let script = HELLO_SCRIPT.concat(alloc)?;
    for line in lines {
        let outcome = run_line(&rt, alloc, line, script.as_bytes(), SOUND)?;
        assert_eq!(rt; outcome.status, 2);
        assert_eq!(rt; outcome.report_text.len(), 0);
        assert_eq!(rt; outcome.fault_line.as_slice(), fault_line);
    }
    Ok(())
}

/// Texts that are no script: nothing runs, and the first fault is told.
#[test]
fn no_script(rt: HostRuntime) -> Result<(), Fail> {
    let alloc = rt.alloc();
    let users = "user a\nuser b\nuser c\nuser d\nuser e\nuser f\nuser g\nuser h\nuser i\n";
    let ninth = text(alloc, &[("machine 0\n", 1), (users, 1)])?;
    let rows = [
        ("fly\n", "ce: line 1: unknown word\n"),
        (
            "machine 0\nuser a\ngetcube 0\nfly\n",
            "ce: line 4: unknown word\n",
        ),
        (ninth.as_str(), "ce: line 10: too many\n"),
        ("machine 0\nimage x asm\nnop\n", "ce: line 2: no end line\n"),
        (
            "machine 0\nimage x asm\nnop\naddi a0\nend\n",
            "ce: line 4: assembly: operands\n",
        ),
        (
            "machine 0\nuser a\nspawn x 0 0\n",
            "ce: line 3: unknown image\n",
        ),
    ];
    for (script, fault_line) in rows {
        let outcome = run_script(&rt, alloc, script)?;
        assert_eq!(rt; outcome.status, 1, "{script}");
        assert_eq!(rt; outcome.report_text.len(), 0, "{script}");
        assert_eq!(rt;
            outcome.fault_line.as_slice(),
            fault_line.as_bytes(),
            "{script}"
        );
    }
    Ok(())
}

/// A script may have `SCRIPT_LIMIT` bytes, and a text of one more is refused, whatever it says.
#[test]
fn script_limits(rt: HostRuntime) -> Result<(), Fail> {
    let alloc = rt.alloc();
    let head = "machine 0\n";
    let mut script = text(alloc, &[(head, 1)])?;
    for _ in head.len()..SCRIPT_LIMIT {
        script.push('#')?;
    }
    let outcome = run_script(&rt, alloc, script.as_str())?;
    assert_eq!(rt; outcome.status, 0);
    assert_eq!(rt;
        outcome.report_text.as_slice(),
        b"machine 0\nend\n".as_slice()
    );
    script.push('#')?;
    let outcome = run_script(&rt, alloc, script.as_str())?;
    assert_eq!(rt; outcome.status, 1);
    assert_eq!(rt; outcome.report_text.len(), 0);
    assert_eq!(rt;
        outcome.fault_line.as_slice(),
        b"ce: script too long\n".as_slice()
    );
    Ok(())
}

/// Runs hello, with so many words of zero behind its own.
fn run_with_zeros<R: Threads + Sync>(rt: &R, alloc: Global, zeros: u32) -> Result<Outcome, Fail> {
    let script = text(
        alloc,
        &[
            (HELLO_START, 1),
            (HELLO_WORDS, 1),
            ("00000000\n", zeros),
            (HELLO_SPAWN, 1),
            ("run 10\n", 1),
        ],
    )?;
    run_script(rt, alloc, script.as_str())
}

/// An image of `IMAGE_ROOM` bytes fills its room. A word more is refused.
#[test]
fn an_image_of_the_greatest_length(rt: HostRuntime) -> Result<(), Fail> {
    let alloc = rt.alloc();
    let report = HELLO_REPORT.concat(alloc)?;
    let outcome = run_with_zeros(&rt, alloc, 30_715)?;
    assert_eq!(rt; outcome.status, 0);
    assert_eq!(rt; outcome.report_text.as_slice(), report.as_bytes());
    let outcome = run_with_zeros(&rt, alloc, 30_716)?;
    assert_eq!(rt; outcome.status, 1);
    assert_eq!(rt;
        outcome.fault_line.as_slice(),
        b"ce: line 2: bad image\n".as_slice()
    );
    Ok(())
}

/// A process that would note for ever makes as many notes as a turn allows.
#[test]
fn a_turn_of_the_most_notes(rt: HostRuntime) -> Result<(), Fail> {
    let alloc = rt.alloc();
    let script =
        "machine 0\nimage notes asm\nli a0, 42\nli a7, 14\nagain: ecall\nj again\nend\nuser a\n\
        getcube 0\nspawn notes 0 0\nrun 10\ndump 0 0\n";
    let head =
        "machine 0\nuser a\ngetcube 0\n= granted mask 0 base 0\nspawn notes 0 0\n= ok\nrun 10\n= quiet\n\
        dump 0 0\n= stopped turn spent\ncube 0 user a dim 0 mask 0 base 0\nhost spawn 0 notes 0.0 ok\n\
        host arm 10\nnode 0 take 0 0 - start 0 notes\n";
    let tail = "node 0 take 0 1 - idle\nhost look quiet\nend\n";
    let want = text(
        alloc,
        &[(head, 1), ("node 0 note 0 42\n", 4_096), (tail, 1)],
    )?;
    let outcome = run_script(&rt, alloc, script)?;
    assert_eq!(rt; outcome.status, 0);
    assert_eq!(rt; outcome.report_text.as_slice(), want.as_bytes());
    Ok(())
}

/// Reads and writes that fail end the run, and are told.
#[test]
fn faults(rt: HostRuntime) -> Result<(), Fail> {
    let alloc = rt.alloc();
    let script = HELLO_SCRIPT.concat(alloc)?;
    let broken_source = Ends {
        failing_read: &[0],
        failing_write: &[],
        greatest_piece: PIECE,
    };
    let outcome = run_line(&rt, alloc, &["--serial"], script.as_bytes(), broken_source)?;
    assert_eq!(rt; outcome.status, 3);
    assert_eq!(rt; outcome.report_text.len(), 0);
    assert_eq!(rt;
        outcome.fault_line.as_slice(),
        b"ce: read fault\n".as_slice()
    );
    let broken_sink = Ends {
        failing_read: &[],
        failing_write: &[2],
        greatest_piece: 8,
    };
    let outcome = run_line(&rt, alloc, &["--serial"], script.as_bytes(), broken_sink)?;
    assert_eq!(rt; outcome.status, 5);
    assert_eq!(rt;
        outcome.report_text.as_slice(),
        b"machine 0\nuser a".as_slice()
    );
    assert_eq!(rt;
        outcome.fault_line.as_slice(),
        b"ce: write fault\n".as_slice()
    );
    Ok(())
}

/// Words that can't be read: for want of memory, or since one is no text.
#[test]
fn words_that_cannot_be_read(rt: HostRuntime) -> Result<(), Fail> {
    let alloc = rt.alloc();
    for (kind, status) in [
        (io::ErrorKind::InvalidData, 2),
        (io::ErrorKind::OutOfMemory, 4),
    ] {
        let mut source = MemSource::new(Vec::new(alloc), Vec::new(alloc), 1);
        let mut sink = memory_sink(alloc, Vec::new(alloc), 1)?;
        let mut errors = memory_sink(alloc, Vec::new(alloc), 3)?;
        let exit = run_command(
            &rt,
            alloc,
            Err(io::Error::from(kind)),
            &mut source,
            &mut sink,
            &mut errors,
            &OpenGate,
        );
        assert_eq!(rt; exit, status);
        assert_eq!(rt; sink.bytes().len(), 0);
    }
    Ok(())
}
