//! What a node that is driven by hand says and hears, worked by hand.

use ce_model::{Status, Stop};
use rk_programs::{
    ALL_WINDOWS, BLOCK_SIZES, GONE_BLOCK, MULTICAST, REQUESTS, UNREADABLE_LIST, WAIT,
};

/// What the driver does.
#[derive(Clone, Copy, Debug)]
pub(super) enum RowCommand {
    Spawn { image: u32, pid: u32 },
    Kill { pid: u32 },
    Run,
}

/// The images, what is done, what the node says and hears in all, and what its processes are then.
#[derive(Clone, Copy)]
pub(super) struct Row {
    pub title: &'static str,
    pub images: &'static [&'static str],
    pub commands: &'static [RowCommand],
    pub transcript: &'static str,
    pub ends: &'static [(u32, Status)],
}

/// One process is started, and runs.
const ONE_PROCESS: &[RowCommand] = &[RowCommand::Spawn { image: 0, pid: 0 }, RowCommand::Run];

/// The greatest block, one byte more than it, and an empty one.
pub(super) const SIZES: Row = Row {
    title: "sizes",
    images: &[BLOCK_SIZES],
    commands: ONE_PROCESS,
    transcript: "\
        take 0 0 - start 0 0\n\
        note 0 2147483648\n\
        note 0 4096\n\
        note 0 0\n\
        note 0 2147549184\n\
        take 0 1 - idle\n",
    ends: &[(0, Status::Stopped(Stop::PastEnd(0x8001_0000)))],
};

/// Sends a block with the word 99 to process 0 of node 0.
const SENDER: &str = "\
                li a0, 4\n\
                li a7, 1\n\
                ecall\n\
                li t0, 99\n\
                sw t0, 0(a0)\n\
                li a1, 0\n\
                li a2, 0\n\
                li a7, 4\n\
                ecall\n\
                li a7, 13\n\
                ecall\n";

/// Takes 32 blocks, of which the last is noted, and then one more, which is noted too.
const TAKES_ALL: &str = "\
                li s0, 32\n\
        loop:   li a0, 4\n\
                li a7, 1\n\
                ecall\n\
                addi s0, s0, -1\n\
                bne s0, zero, loop\n\
                li a7, 14\n\
                ecall\n\
                li a0, 4\n\
                li a7, 1\n\
                ecall\n\
                li a7, 14\n\
                ecall\n\
                li a7, 13\n\
                ecall\n";

/// A process has 32,768 windows; a message that finds none left is its end, and the message's block
/// goes to the store.
pub(super) const WINDOWS: Row = Row {
    title: "windows",
    images: &[ALL_WINDOWS, SENDER, TAKES_ALL],
    commands: &[
        RowCommand::Spawn { image: 0, pid: 0 },
        RowCommand::Run,
        RowCommand::Spawn { image: 1, pid: 1 },
        RowCommand::Run,
        RowCommand::Spawn { image: 2, pid: 2 },
        RowCommand::Run,
    ],
    transcript: "\
        take 0 0 - start 0 0\n\
        note 0 0\n\
        take 1 0 - idle\n\
        take 1 0 - start 1 1\n\
        send 1 0 63000000 0.0=0.0\n\
        take 1 2 - mail 0 0\n\
        take 0 3 - idle\n\
        take 0 3 - start 2 2\n\
        note 2 2149515264\n\
        note 2 0\n\
        take 0 7 - idle\n",
    ends: &[
        (0, Status::Stopped(Stop::WindowsSpent)),
        (1, Status::Stopped(Stop::Exited(0))),
        (2, Status::Stopped(Stop::Exited(0))),
    ],
};

/// Jumps and branches by 6, and a jump to the register that it writes.
pub(super) const JUMPS: Row = Row {
    title: "jumps",
    images: &[
        ".word 0x006000EF\n",
        "\
                .word 0x00001363\n\
                li a7, 13\n\
                ecall\n",
        ".word 0x00000363\n",
        "\
                la ra, there\n\
                .word 0x000080E7\n\
                ebreak\n\
        there:  mv a0, ra\n\
                li a7, 13\n\
                ecall\n",
    ],
    commands: &[
        RowCommand::Spawn { image: 0, pid: 0 },
        RowCommand::Spawn { image: 1, pid: 1 },
        RowCommand::Spawn { image: 2, pid: 2 },
        RowCommand::Spawn { image: 3, pid: 3 },
        RowCommand::Run,
    ],
    transcript: "\
        take 0 0 - start 0 0\n\
        take 0 1 - start 1 1\n\
        take 0 3 - start 2 2\n\
        take 0 7 - start 3 3\n\
        take 0 15 - idle\n",
    ends: &[
        (0, Status::Stopped(Stop::Target(0x0001_0000))),
        (1, Status::Stopped(Stop::Exited(0))),
        (2, Status::Stopped(Stop::Target(0x0001_0000))),
        (3, Status::Stopped(Stop::Exited(0x0001_000C))),
    ],
};

/// One block to several places, and each refusal, in its order.
pub(super) const XMSEND: Row = Row {
    title: "xmsend",
    images: &[MULTICAST],
    commands: ONE_PROCESS,
    transcript: "\
        take 0 0 - start 0 0\n\
        note 0 0\n\
        send 0 0 00000000 0.1=0.0 0.1=0.1\n\
        note 0 0\n\
        note 0 1\n\
        note 0 2\n\
        note 0 2\n\
        note 0 3\n\
        note 0 4\n\
        send 0 2 00000000 0.1=0.2 0.1=0.3 0.1=0.4 0.1=0.5 0.1=0.6 0.1=0.7 0.1=0.8 0.1=0.9 0.1=0.10 0.1=0.11 \
        0.1=0.12 0.1=0.13 0.1=0.14 0.1=0.15 0.1=0.16 0.1=0.17 0.1=0.18 0.1=0.19 0.1=0.20 0.1=0.21 0.1=0.22 \
        0.1=0.23 0.1=0.24 0.1=0.25 0.1=0.26 0.1=0.27 0.1=0.28 0.1=0.29 0.1=0.30 0.1=0.31\n\
        note 0 0\n\
        take 0 1 - idle\n",
    ends: &[(0, Status::Stopped(Stop::Gone(0x8000_0000)))],
};

/// A list that can't be read to its end stops the process, though its first place is none.
pub(super) const UNREAD: Row = Row {
    title: "unread",
    images: &[UNREADABLE_LIST],
    commands: ONE_PROCESS,
    transcript: "\
        take 0 0 - start 0 0\n\
        take 0 1 - idle\n",
    ends: &[(0, Status::Stopped(Stop::Unmapped(0x0003_0000)))],
};

/// The 4,097th counted call of a turn stops the process, though xmsend of no block would stop it
/// too.
pub(super) const CALLS_SPENT: Row = Row {
    title: "calls_spent",
    images: &[
        "\
                li a0, 4\n\
                li a7, 1\n\
                ecall\n\
                mv s1, a0\n\
                li s0, 4095\n\
        loop:   mv a0, s1\n\
                li a1, 65\n\
                li a7, 5\n\
                ecall\n\
                addi s0, s0, -1\n\
                bne s0, zero, loop\n\
                li a7, 14\n\
                ecall\n\
                li a0, 0\n\
                li a7, 5\n\
                ecall\n",
    ],
    commands: ONE_PROCESS,
    transcript: "\
        take 0 0 - start 0 0\n\
        note 0 3\n\
        take 0 1 - idle\n",
    ends: &[(0, Status::Stopped(Stop::TurnSpent))],
};

/// What instructions stop.
pub(super) const CAUSES_OF_INSTRUCTIONS: Row = Row {
    title: "causes_of_instructions",
    images: &[
        "\
                li a0, 7\n\
                li a7, 13\n\
                ecall\n",
        ".word 0xFFFFFFFF\n",
        "jalr zero, 0(sp)\n",
        ".word 0x006000EF\n",
        "lw t0, 1(sp)\n",
        "lw t0, 0(sp)\n",
        "ebreak\n",
        "\
                li a7, 15\n\
                ecall\n",
    ],
    commands: &[
        RowCommand::Spawn { image: 0, pid: 0 },
        RowCommand::Spawn { image: 1, pid: 1 },
        RowCommand::Spawn { image: 2, pid: 2 },
        RowCommand::Spawn { image: 3, pid: 3 },
        RowCommand::Spawn { image: 4, pid: 4 },
        RowCommand::Spawn { image: 5, pid: 5 },
        RowCommand::Spawn { image: 6, pid: 6 },
        RowCommand::Spawn { image: 7, pid: 7 },
        RowCommand::Run,
    ],
    transcript: "\
        take 0 0 - start 0 0\n\
        take 0 1 - start 1 1\n\
        take 0 3 - start 2 2\n\
        take 0 7 - start 3 3\n\
        take 0 15 - start 4 4\n\
        take 0 31 - start 5 5\n\
        take 0 63 - start 6 6\n\
        take 0 127 - start 7 7\n\
        take 0 255 - idle\n",
    ends: &[
        (0, Status::Stopped(Stop::Exited(7))),
        (1, Status::Stopped(Stop::Illegal(0x0001_0000, 0xFFFF_FFFF))),
        (2, Status::Stopped(Stop::Fetch(0x0003_0000))),
        (3, Status::Stopped(Stop::Target(0x0001_0000))),
        (4, Status::Stopped(Stop::Misaligned(0x0003_0001))),
        (5, Status::Stopped(Stop::Unmapped(0x0003_0000))),
        (6, Status::Stopped(Stop::Break(0x0001_0000))),
        (7, Status::Stopped(Stop::NoCall(15))),
    ],
};

/// What calls and blocks stop, a turn without an end, and a kill.
pub(super) const CAUSES_OF_CALLS: Row = Row {
    title: "causes_of_calls",
    images: &[
        WAIT,
        "\
                li a0, 3\n\
                li a7, 3\n\
                ecall\n",
        "\
                li a0, 0\n\
                li a7, 1\n\
                ecall\n\
                lb t1, 0(a0)\n",
        GONE_BLOCK,
        "loop: j loop\n",
    ],
    commands: &[
        RowCommand::Spawn { image: 0, pid: 0 },
        RowCommand::Spawn { image: 1, pid: 1 },
        RowCommand::Spawn { image: 2, pid: 2 },
        RowCommand::Spawn { image: 3, pid: 3 },
        RowCommand::Spawn { image: 4, pid: 4 },
        RowCommand::Run,
        RowCommand::Kill { pid: 0 },
        RowCommand::Run,
    ],
    transcript: "\
        take 0 0 - start 0 0\n\
        take 1 0 - start 1 1\n\
        take 1 2 - start 2 2\n\
        take 1 6 - start 3 3\n\
        send 3 0 0700000000000000 host.0=0.0\n\
        take 1 14 - start 4 4\n\
        take 1 30 - idle\n\
        take 1 30 - kill 0\n\
        take 0 31 - idle\n",
    ends: &[
        (0, Status::Stopped(Stop::Killed)),
        (1, Status::Stopped(Stop::NotABlock(3))),
        (2, Status::Stopped(Stop::PastEnd(0x8000_0000))),
        (3, Status::Stopped(Stop::Gone(0x8000_0000))),
        (4, Status::Stopped(Stop::TurnSpent)),
    ],
};

/// Exits at once.
const ENDS: &str = "\
                li a7, 13\n\
                ecall\n";

/// Does this first, notes what a0 holds then, and exits with it.
macro_rules! noter {
    ($first:literal) => {
        concat!(
            $first,
            "\
                li a7, 14\n\
                ecall\n\
                li a7, 13\n\
                ecall\n"
        )
    };
}

/// A process is started, and a word that it notes changes nothing in it.
pub(super) const STARTED: Row = Row {
    title: "started",
    images: &[noter!(
        "\
                li a0, 5\n"
    )],
    commands: ONE_PROCESS,
    transcript: "\
        take 0 0 - start 0 0\n\
        note 0 5\n\
        take 0 1 - idle\n",
    ends: &[(0, Status::Stopped(Stop::Exited(5)))],
};

/// Waits for a message by the call of this number, and notes where its block is and the word there.
macro_rules! reader {
    ($call:literal) => {
        concat!(
            "\
                li a7, ",
            $call,
            "\n\
                ecall\n\
                li a7, 14\n\
                ecall\n\
                lw a0, 0(a0)\n\
                ecall\n\
                li a7, 13\n\
                ecall\n"
        )
    };
}

/// One process waits, and then another sends.
const READER_AND_SENDER: &[RowCommand] = &[
    RowCommand::Spawn { image: 0, pid: 0 },
    RowCommand::Spawn { image: 1, pid: 1 },
    RowCommand::Run,
];

/// The one has read the block, and the other has sent it.
const READ_AND_SENT: &[(u32, Status)] = &[
    (0, Status::Stopped(Stop::Exited(99))),
    (1, Status::Stopped(Stop::Exited(0))),
];

/// A process in xrecvb gets a message: its window's address, and the block there.
pub(super) const MAIL_FOR_ONE_THAT_ASKS: Row = Row {
    title: "mail_for_one_that_asks",
    images: &[reader!("7"), SENDER],
    commands: READER_AND_SENDER,
    transcript: "\
        take 0 0 - start 0 0\n\
        take 1 0 - start 1 1\n\
        send 1 0 63000000 0.0=0.0\n\
        take 1 2 - mail 0 0\n\
        note 0 2147483648\n\
        note 0 99\n\
        take 0 3 - idle\n",
    ends: READ_AND_SENT,
};

/// The same in xrecv.
pub(super) const MAIL_FOR_ONE_THAT_POLLS: Row = Row {
    title: "mail_for_one_that_polls",
    images: &[reader!("6"), SENDER],
    commands: READER_AND_SENDER,
    transcript: "\
        take 0 0 - start 0 0\n\
        take 1 0 0 start 1 1\n\
        send 1 0 63000000 0.0=0.0\n\
        take 1 2 0 mail 0 0\n\
        note 0 2147483648\n\
        note 0 99\n\
        take 0 3 - idle\n",
    ends: READ_AND_SENT,
};

/// A message for a process that has stopped: its block is in the store, where another process finds
/// all 32.
pub(super) const MAIL_FOR_ONE_THAT_HAS_STOPPED: Row = Row {
    title: "mail_for_one_that_has_stopped",
    images: &[ENDS, SENDER, TAKES_ALL],
    commands: &[
        RowCommand::Spawn { image: 0, pid: 0 },
        RowCommand::Spawn { image: 1, pid: 1 },
        RowCommand::Run,
        RowCommand::Spawn { image: 2, pid: 2 },
        RowCommand::Run,
    ],
    transcript: "\
        take 0 0 - start 0 0\n\
        take 0 1 - start 1 1\n\
        send 1 0 63000000 0.0=0.0\n\
        take 0 3 - mail 0 0\n\
        take 0 3 - idle\n\
        take 0 3 - start 2 2\n\
        note 2 2149515264\n\
        note 2 0\n\
        take 0 7 - idle\n",
    ends: &[
        (0, Status::Stopped(Stop::Exited(0))),
        (1, Status::Stopped(Stop::Exited(0))),
        (2, Status::Stopped(Stop::Exited(0))),
    ],
};

/// One process is started and runs, and then it is killed.
const RUN_AND_KILL: &[RowCommand] = &[
    RowCommand::Spawn { image: 0, pid: 0 },
    RowCommand::Run,
    RowCommand::Kill { pid: 0 },
    RowCommand::Run,
];

/// A process that waits is killed.
pub(super) const KILLED: Row = Row {
    title: "killed",
    images: &[WAIT],
    commands: RUN_AND_KILL,
    transcript: "\
        take 0 0 - start 0 0\n\
        take 1 0 - idle\n\
        take 1 0 - kill 0\n\
        take 0 1 - idle\n",
    ends: &[(0, Status::Stopped(Stop::Killed))],
};

/// A process that has stopped stays what it was when it is killed.
pub(super) const KILLED_LATE: Row = Row {
    title: "killed_late",
    images: &[ENDS],
    commands: RUN_AND_KILL,
    transcript: "\
        take 0 0 - start 0 0\n\
        take 0 1 - idle\n\
        take 0 1 - kill 0\n\
        take 0 1 - idle\n",
    ends: &[(0, Status::Stopped(Stop::Exited(0)))],
};

/// A process that polls is told 0.
pub(super) const POLLED: Row = Row {
    title: "polled",
    images: &[noter!(
        "\
                li a0, 7\n\
                li a7, 6\n\
                ecall\n"
    )],
    commands: ONE_PROCESS,
    transcript: "\
        take 0 0 - start 0 0\n\
        take 1 0 0 poll 0\n\
        note 0 0\n\
        take 0 1 - idle\n",
    ends: &[(0, Status::Stopped(Stop::Exited(0)))],
};

/// What a process is told of a spawn, a kill and a message: 0 to 3.
pub(super) const ANSWERS: Row = Row {
    title: "answers",
    images: &[WAIT, REQUESTS],
    commands: &[RowCommand::Spawn { image: 1, pid: 0 }, RowCommand::Run],
    transcript: "\
        take 0 0 - start 0 1\n\
        spawn 0 0 0.1 ok\n\
        note 0 0\n\
        spawn 0 0 0.1 used\n\
        note 0 2\n\
        note 0 3\n\
        note 0 1\n\
        kill 0 0.1 ok\n\
        note 0 0\n\
        kill 0 0.1 already\n\
        note 0 3\n\
        kill 0 0.5 unused\n\
        note 0 2\n\
        note 0 1\n\
        note 0 1\n\
        send 0 0 00000000 host.0=0.0\n\
        note 0 0\n\
        take 0 1 - start 1 0\n\
        take 2 1 - kill 1\n\
        take 0 3 - idle\n",
    ends: &[
        (0, Status::Stopped(Stop::Exited(9))),
        (1, Status::Stopped(Stop::Killed)),
    ],
};

/// Where there is nothing to do the node stays as it is, and asks again.
pub(super) const IDLE: Row = Row {
    title: "idle",
    images: &[],
    commands: &[RowCommand::Run, RowCommand::Run],
    transcript: "\
        take 0 0 - idle\n\
        take 0 0 - idle\n",
    ends: &[(0, Status::Unborn)],
};
