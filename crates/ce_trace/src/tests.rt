ghost use Rattle.std.specs.Prelude.{◌<◌, length, IsTrue};
ghost use Rattle.ce_script.specs.Names.{is_name};

use super::*;
use crate::commands::push_command;
use crate::entries::push_entry;
use crate::replies::push_reply;
use crate::stops::push_status;
use crate::words::push_line_feed;
use ce_daemon::{Grant, Grants, PeekResult};
use ce_host::{Answer, Command};
use ce_model::{
    BlockId, Bytes, Entry, HOST, HOST_HOME, KillResult, LookResult, NoMemory, Place, Status, Stop,
    Subcube, TakeResult, Targets, What,
};
use ce_script::{Name, NamedImage, Record, Script, UserRecord};
use rv_image::Image;
use rv_model::PRIVATE_START;
use sqlite_items::Items;
use std::alloc::{AllocError, Global};
use std::process::Abort;
use std::test::Fail;

/// The one node of a machine of dimension 0.
const WHOLE: Subcube = Subcube { mask: 0, base: 0 };

/// The nodes 2, 3, 6 and 7 of a machine of dimension 3.
const UPPER: Subcube = Subcube { mask: 5, base: 2 };

const IDLE: What = What::Take {
    asking: 0,
    dead: 0,
    poller: None,
    given: TakeResult::Idle,
};

fn name(alloc: Global, text: &str) -> Result<Name, NoMemory>
    requires { IsTrue (is_name text.now) }
{
    Ok(Name::from_text(String::from_str(alloc, text)?))
}

#[tactic(auto, unfolding(ce_script::specs::Names::is_name, ce_script::specs::Names::name_room, ce_text::specs::Name::is_name))]
fn hello(alloc: Global) -> Result<NamedImage, Fail> {
    let image = Image::of_parts(PRIVATE_START, Vec::from_slice(alloc, &[0x73, 0, 0, 0])?, 0)?;
    let name = name(alloc, "hello")?;
    Ok(NamedImage { name, image })
}

/// A script with one image, `hello`.
fn script(alloc: Global, dim: Option<u32>) -> Result<Script, Fail> {
    let mut images = Items::new(alloc);
    images.push(hello(alloc)?)?;
    Ok(Script {
        dim,
        images,
        users: Items::new(alloc),
        commands: Items::new(alloc),
    })
}

#[tactic(auto, unfolding(ce_script::specs::Names::is_name, ce_script::specs::Names::name_room, ce_text::specs::Name::is_name))]
fn alice(alloc: Global, done: Vec<(Command, Answer)>) -> Result<UserRecord, NoMemory> {
    let name = name(alloc, "alice")?;
    let done = Items::from_vec(done);
    Ok(UserRecord { name, done })
}

/// The record of one user, alice.
fn alice_record(
    alloc: Global,
    done: Vec<(Command, Answer)>,
    history: Vec<Entry>,
) -> Result<Record, NoMemory> {
    let mut users = Items::new(alloc);
    users.push(alice(alloc, done)?)?;
    let history = Items::from_vec(history);
    Ok(Record { users, history })
}

fn place(node: u32, pid: u32) -> Place {
    Place { node, pid }
}

fn block(home: u32, index: u32) -> BlockId {
    BlockId { home, index }
}

fn host_entry(user: u32, what: What) -> Entry {
    node_entry(user, HOST, what)
}

fn node_entry(user: u32, actor: u32, what: What) -> Entry {
    Entry { user, actor, what }
}

fn grant_entry(user: u32) -> Entry {
    let sub = Some(WHOLE);
    host_entry(user, What::Getcube { dim: 0, sub })
}

fn spawn_what(pid: u32, to: Place, fresh: bool) -> What {
    What::Spawn {
        pid,
        image: 0,
        to,
        fresh,
    }
}

fn take_what(asking: u32, dead: u32, poller: Option<u32>, given: TakeResult) -> What {
    What::Take {
        asking,
        dead,
        poller,
        given,
    }
}

fn look(found: LookResult) -> Entry {
    host_entry(0, What::Look { found })
}

#[tactic(auto, using(ce_model::specs::Limits::block_room_lem))]
fn bytes(alloc: Global, bytes: &[u8]) -> Result<Bytes, NoMemory>
    requires { length bytes.now < 9 }
{
    Ok(Bytes::from_vec(Vec::from_slice(alloc, bytes)?))
}

fn send(alloc: Global, to: &[(Place, BlockId)], content: &[u8]) -> Result<What, NoMemory>
    requires { length content.now < 9 }
{
    let to = Targets::from_vec(Vec::from_slice(alloc, to)?);
    let bytes = bytes(alloc, content)?;
    Ok(What::Send {
        pid: 1,
        first: 7,
        to,
        bytes,
    })
}

/// The report of a run of alice's.
fn report(
    alloc: Global,
    done: Vec<(Command, Answer)>,
    history: Vec<Entry>,
) -> Result<Vec<u8>, Fail> {
    let run_record = alice_record(alloc, done, history)?;
    let script = script(alloc, Some(0))?;
    Ok(write_report(alloc, &script, &run_record)?)
}

fn done_of_hello(alloc: Global) -> Result<Vec<(Command, Answer)>, AllocError> {
    Ok(vec![in alloc;
        (Command::Getcube(0), Answer::Granted(WHOLE)),
        (Command::Spawn(0, place(0, 0)), Answer::Ok),
        (Command::Run(10), Answer::Quiet),
    ]?)
}

fn history_of_hello(alloc: Global) -> Result<Vec<Entry>, AllocError> {
    let start = TakeResult::Start { pid: 0, image: 0 };
    Ok(vec![in alloc;
        grant_entry(0),
        host_entry(0, spawn_what(0, place(0, 0), true)),
        host_entry(0, What::Arm { count: 10 }),
        node_entry(0, 0, take_what(0, 0, None, start)),
        node_entry(0, 0, What::Note { pid: 0, word: 42 }),
        node_entry(0, 0, take_what(0, 1, None, TakeResult::Idle)),
        look(LookResult::Quiet),
    ]?)
}

#[test]
fn the_report_of_hello(rt: HostRuntime) -> Result<(), Fail> {
    let alloc = rt.alloc();
    let text = report(alloc, done_of_hello(alloc)?, history_of_hello(alloc)?)?;
    let expected = "machine 0
user alice
getcube 0
= granted mask 0 base 0
spawn hello 0 0
= ok
run 10
= quiet
cube 0 user alice dim 0 mask 0 base 0
host spawn 0 hello 0.0 ok
host arm 10
node 0 take 0 0 - start 0 hello
node 0 note 0 42
node 0 take 0 1 - idle
host look quiet
end
";
    assert_eq!(rt; text.as_slice(), expected.as_bytes());
    Ok(())
}

/// The report of a machine that nobody uses.
fn idle_report(alloc: Global, dim: Option<u32>) -> Result<Vec<u8>, Fail> {
    let script = script(alloc, dim)?;
    let run_record = Record {
        users: Items::new(alloc),
        history: Items::new(alloc),
    };
    Ok(write_report(alloc, &script, &run_record)?)
}

#[test]
fn the_reports_of_nothing_and_of_a_machine_alone(rt: HostRuntime) -> Result<(), Fail> {
    let alloc = rt.alloc();
    let nothing = idle_report(alloc, None)?;
    assert_eq!(rt; nothing.as_slice(), b"".as_slice());
    let alone = idle_report(alloc, Some(0))?;
    assert_eq!(rt; alone.as_slice(), b"machine 0\nend\n".as_slice());
    Ok(())
}

/// The view of a grant, as it is printed for debugging.
fn printed_view(alloc: Global, history: Vec<Entry>, grant: u64) -> Result<String, Fail> {
    let trace = view(alloc, history.as_slice(), grant)?;
    Ok(format!(in alloc; "{trace:?}")?)
}

/// The history of two cubes, each of the machine's one node.
fn two_cubes(alloc: Global) -> Result<Vec<Entry>, NoMemory> {
    let sent = send(alloc, &[(place(0, 0), block(HOST_HOME, 0))], &[0xAA])?;
    let history = vec![in alloc;
        grant_entry(0),
        host_entry(0, sent),
        host_entry(0, What::Drain),
        host_entry(0, What::Freecube),
        grant_entry(1),
        node_entry(1, 0, IDLE),
    ]?;
    Ok(history)
}

#[test]
fn the_view_of_the_second_cube_is_its_own_take(rt: HostRuntime) -> Result<(), Fail> {
    let alloc = rt.alloc();
    let printed = printed_view(alloc, two_cubes(alloc)?, 1)?;
    assert_eq!(rt;
        printed.as_str(),
        "[Entry { user: 1, actor: 0, what: Take { asking: 0, dead: 0, poller: None, given: Idle } }]"
    );
    Ok(())
}

fn push_entries(text: &mut Vec<u8>, script: &Script, entries: &[Entry]) -> Result<(), AllocError> {
    for entry in entries {
        push_entry(text, script, UPPER, entry)?;
    }
    Ok(())
}

fn get(number: Option<u64>) -> Entry {
    host_entry(0, What::HostTake { number })
}

fn kill(found: KillResult) -> Entry {
    let to = place(6, 7);
    host_entry(0, What::Kill { pid: 0, to, found })
}

fn host_entries(alloc: Global) -> Result<Vec<Entry>, AllocError> {
    Ok(vec![in alloc;
        look(LookResult::Spent),
        look(LookResult::Busy),
        get(Some(12)),
        get(None),
        kill(KillResult::Killed),
        kill(KillResult::Unused),
        kill(KillResult::Already),
    ]?)
}

/// A message of a node to a process and to the host, and a start of a process that was there.
fn node_entries(alloc: Global) -> Result<Vec<Entry>, NoMemory> {
    let process = (place(7, 2), block(6, 31));
    let host = (place(HOST, 0), block(HOST_HOME + 3, 4));
    let sent = send(alloc, &[process, host], &[0x00, 0xFA])?;
    let entries = vec![in alloc;
        node_entry(0, 3, sent),
        node_entry(0, 7, spawn_what(5, place(3, 4), false)),
    ]?;
    Ok(entries)
}

/// A take of relative node 0 with all masks, and with the process that asked longest ago.
fn take(row: TakeResult) -> Entry {
    node_entry(0, 2, take_what(5, 250, Some(3), row))
}

fn takes(alloc: Global) -> Result<Vec<Entry>, AllocError> {
    Ok(vec![in alloc;
        take(TakeResult::Mail { pid: 1, number: 99 }),
        take(TakeResult::Kill { pid: 6 }),
        take(TakeResult::Poll { pid: 3 }),
        take(TakeResult::Spent),
    ]?)
}

/// The lines of all these in the trace of the cube of the nodes 2, 3, 6 and 7.
fn lines_of_entries(alloc: Global) -> Result<Vec<u8>, Fail> {
    let script = script(alloc, Some(3))?;
    let mut text = Vec::new(alloc);
    push_entries(&mut text, &script, host_entries(alloc)?.as_slice())?;
    push_entries(&mut text, &script, node_entries(alloc)?.as_slice())?;
    push_entries(&mut text, &script, takes(alloc)?.as_slice())?;
    Ok(text)
}

#[test]
fn the_lines_of_entries(rt: HostRuntime) -> Result<(), Fail> {
    let text = lines_of_entries(rt.alloc())?;
    let expected = "host look spent
host look busy
host get 12
host get -
host kill 0 2.7 ok
host kill 0 2.7 unused
host kill 0 2.7 already
node 1 send 1 7 3.2=2.31,host.0=host.4 00fa
node 3 spawn 5 hello 1.4 used
node 0 take 5 250 3 mail 1 99
node 0 take 5 250 3 kill 6
node 0 take 5 250 3 poll 3
node 0 take 5 250 3 spent
";
    assert_eq!(rt; text.as_slice(), expected.as_bytes());
    Ok(())
}

/// The text of a state of a process.
fn check_status(
    rt: &impl Abort,
    alloc: Global,
    status: Status,
    expected: &str,
) -> Result<(), Fail> {
    let mut text = Vec::new(alloc);
    push_status(&mut text, status)?;
    assert_eq!(rt; text.as_slice(), expected.as_bytes());
    Ok(())
}

#[test]
fn the_texts_of_states(rt: HostRuntime) -> Result<(), Fail> {
    for (status, expected) in [
        (Status::Unborn, "unborn"),
        (Status::Running, "running"),
        (Status::Asking, "asking"),
        (Status::Polling, "polling"),
    ] {
        check_status(&rt, rt.alloc(), status, expected)?;
    }
    Ok(())
}

#[test]
fn the_texts_of_causes(rt: HostRuntime) -> Result<(), Fail> {
    for (cause, expected) in [
        (Stop::Exited(42), "stopped exited 42"),
        (Stop::Killed, "stopped killed"),
        (
            Stop::Illegal(PRIVATE_START, 0xFEDC_BA98),
            "stopped illegal 0x00010000 0xfedcba98",
        ),
        (Stop::Fetch(0xFFFF_FFFE), "stopped fetch 0xfffffffe"),
        (Stop::Target(4), "stopped target 0x00000004"),
        (Stop::Misaligned(5), "stopped misaligned 0x00000005"),
        (Stop::Unmapped(6), "stopped unmapped 0x00000006"),
        (Stop::Gone(7), "stopped gone 0x00000007"),
        (Stop::PastEnd(8), "stopped past end 0x00000008"),
        (Stop::NotABlock(9), "stopped not a block 0x00000009"),
        (Stop::Break(16), "stopped break 0x00000010"),
        (Stop::NoCall(99), "stopped no call 99"),
        (Stop::TurnSpent, "stopped turn spent"),
        (Stop::WindowsSpent, "stopped windows spent"),
    ] {
        check_status(&rt, rt.alloc(), Status::Stopped(cause), expected)?;
    }
    Ok(())
}

fn push_replies(
    text: &mut Vec<u8>,
    run_record: &Record,
    answers: &[Answer],
) -> Result<(), AllocError> {
    for answer in answers {
        push_reply(text, run_record, answer)?;
        push_line_feed(text)?;
    }
    Ok(())
}

fn bare_replies(alloc: Global) -> Result<Vec<Answer>, AllocError> {
    Ok(vec![in alloc;
        Answer::NoCube,
        Answer::Held,
        Answer::None,
        Answer::Freed,
        Answer::NoPlace,
        Answer::Used,
        Answer::Unused,
        Answer::Already,
        Answer::NoStore,
        Answer::Spent,
        Answer::State(Status::Polling),
        Answer::Entries(u64::MAX),
    ]?)
}

/// Two cubes are held, one by alice and one by a user without a name.
fn peek_answer(alloc: Global) -> Result<Answer, AllocError> {
    let grants = vec![in alloc;
        Grant {
            number: 4,
            user: 0,
            dim: 2,
            sub: UPPER
        },
        Grant {
            number: 7,
            user: 1,
            dim: 0,
            sub: WHOLE
        },
    ]?;
    Ok(Answer::Peeked(PeekResult {
        free: 3,
        grants: Grants::from_vec(grants),
    }))
}

/// A message of process 1 of node 3.
fn message(alloc: Global) -> Result<Answer, NoMemory> {
    Ok(Answer::Message(place(3, 1), bytes(alloc, &[0x0A, 0xB0])?))
}

/// Replies in alice's report, a line each.
fn lines_of_replies(alloc: Global) -> Result<Vec<u8>, NoMemory> {
    let run_record = alice_record(alloc, Vec::new(alloc), Vec::new(alloc))?;
    let more = vec![in alloc; message(alloc)?, peek_answer(alloc)?]?;
    let mut text = Vec::new(alloc);
    push_replies(&mut text, &run_record, bare_replies(alloc)?.as_slice())?;
    push_replies(&mut text, &run_record, more.as_slice())?;
    Ok(text)
}

#[test]
fn the_texts_of_replies(rt: HostRuntime) -> Result<(), Fail> {
    let text = lines_of_replies(rt.alloc())?;
    let expected = "no cube
held
none
freed
no place
used
unused
already
no store
spent
polling
entries 18446744073709551615
message 3.1 0ab0
free 3, alice dim 2 mask 5 base 2,  dim 0 mask 0 base 0
";
    assert_eq!(rt; text.as_slice(), expected.as_bytes());
    Ok(())
}

fn push_commands(
    text: &mut Vec<u8>,
    script: &Script,
    commands: &[Command],
) -> Result<(), AllocError> {
    for command in commands {
        push_command(text, script, command)?;
        push_line_feed(text)?;
    }
    Ok(())
}

fn bare_commands(alloc: Global) -> Result<Vec<Command>, AllocError> {
    Ok(vec![in alloc;
        Command::Peek,
        Command::Freecube,
        Command::Spawn(0, place(3, 15)),
        Command::Kill(place(0, 1)),
        Command::Run(1_000_000),
        Command::Recv(7),
        Command::Dump(place(1, 2)),
        Command::Trace,
    ]?)
}

fn sends(alloc: Global) -> Result<Vec<Command>, NoMemory> {
    let several = bytes(alloc, &[0xAA, 0x05])?;
    let nothing = bytes(alloc, &[])?;
    let commands = vec![in alloc;
        Command::Send(place(63, 2), several),
        Command::Send(place(0, 0), nothing),
    ]?;
    Ok(commands)
}

/// Commands, a line each.
fn lines_of_commands(alloc: Global) -> Result<Vec<u8>, Fail> {
    let script = script(alloc, Some(3))?;
    let mut text = Vec::new(alloc);
    push_commands(&mut text, &script, bare_commands(alloc)?.as_slice())?;
    push_commands(&mut text, &script, sends(alloc)?.as_slice())?;
    Ok(text)
}

#[test]
fn the_texts_of_commands(rt: HostRuntime) -> Result<(), Fail> {
    let text = lines_of_commands(rt.alloc())?;
    let expected = "peek
freecube
spawn hello 3 15
kill 0 1
run 1000000
recv 7
dump 1 2
trace
send 63 2 aa05
send 0 0 -
";
    assert_eq!(rt; text.as_slice(), expected.as_bytes());
    Ok(())
}

fn received_twice(alloc: Global) -> Result<Vec<(Command, Answer)>, NoMemory> {
    let first = message(alloc)?;
    let done = vec![in alloc;
        (Command::Peek, Answer::None),
        (Command::Recv(5), first),
        (Command::Recv(5), Answer::None),
    ]?;
    Ok(done)
}

/// The summary of a load in which alice did this.
fn alice_summary(alloc: Global, done: Vec<(Command, Answer)>) -> Result<Vec<u8>, NoMemory> {
    let run_record = alice_record(alloc, done, Vec::new(alloc))?;
    write_summary(alloc, 4_294_967_295, &run_record)
}

#[test]
fn the_summary_has_what_was_received_first(rt: HostRuntime) -> Result<(), Fail> {
    let alloc = rt.alloc();
    let text = alice_summary(alloc, received_twice(alloc)?)?;
    assert_eq!(rt;
        text.as_slice(),
        b"load 4294967295\nalice message 3.1 0ab0\n".as_slice()
    );
    Ok(())
}

/// A cube that is granted, takes once and is given back.
fn push_cube(history: &mut Vec<Entry>, user: u32) -> Result<(), AllocError> {
    history.push(grant_entry(user))?;
    history.push(node_entry(user, 0, IDLE))?;
    history.push(host_entry(user, What::Drain))?;
    history.push(host_entry(user, What::Freecube))?;
    Ok(())
}

fn many_cubes(alloc: Global) -> Result<Vec<Entry>, AllocError> {
    let mut history = Vec::new(alloc);
    for number in 0..25_000u32 {
        push_cube(&mut history, number % 7)?;
    }
    Ok(history)
}

#[test]
fn a_report_of_many_cubes(rt: HostRuntime) -> Result<(), Fail> {
    let alloc = rt.alloc();
    let text = report(alloc, Vec::new(alloc), many_cubes(alloc)?)?;
    let end = b"cube 24999 user  dim 0 mask 0 base 0\nnode 0 take 0 0 - idle\nend\n";
    assert!(rt; text.ends_with(end));
    Ok(())
}
