//! Scripts with the reports that they have.

use rk_programs::{
    ALL_WINDOWS, BLOCK_SIZES, GONE_BLOCK, MULTICAST, REQUESTS, UNREADABLE_LIST, WAIT,
};

/// A script and its whole report, both in pieces.
#[derive(Clone, Copy)]
pub(super) struct Row {
    pub title: &'static str,
    pub script: &'static [&'static str],
    pub report: &'static [&'static str],
}

/// Notes 42 and exits: `li a0, 42`; `li a7, 14`; `ecall`; `li a7, 13`; `ecall`.
pub(super) const HELLO_WORDS: &str = "02A00513 00E00893 00000073 00D00893 00000073\n";

/// A machine with the image hello, up to its words.
pub(super) const HELLO_START: &str = "\
    machine 0\n\
    image hello hex\n";

/// Behind the words of hello: alice starts it.
pub(super) const HELLO_SPAWN: &str = "\
    end\n\
    user alice\n\
    getcube 0\n\
    spawn hello 0 0\n";

/// The replies to alice, who gets the one node and starts hello.
const HELLO_REPLIES: &str = "\
    machine 0\n\
    user alice\n\
    getcube 0\n\
    = granted mask 0 base 0\n\
    spawn hello 0 0\n\
    = ok\n";

/// The head of the trace of alice's cube, where she starts hello.
const HELLO_CUBE: &str = "\
    cube 0 user alice dim 0 mask 0 base 0\n\
    host spawn 0 hello 0.0 ok\n";

/// The trace of a run of hello.
const HELLO_RUN: &str = "\
    node 0 take 0 0 - start 0 hello\n\
    node 0 note 0 42\n\
    node 0 take 0 1 - idle\n\
    host look quiet\n";

/// Hello runs.
pub(super) const HELLO_SCRIPT: &[&str] = &[HELLO_START, HELLO_WORDS, HELLO_SPAWN, "run 10\n"];

/// What is reported of that.
pub(super) const HELLO_REPORT: &[&str] = &[
    HELLO_REPLIES,
    "run 10\n= quiet\n",
    HELLO_CUBE,
    "host arm 10\n",
    HELLO_RUN,
    "end\n",
];

/// Waits for a message, and exits.
const WAITER: &str = "\
        li a7, 7\n\
        ecall\n\
        li a7, 13\n\
        ecall\n";

/// Three users with a cube of one node each.
const THREE_CUBES: &str = "\
    machine 2\n\
    user a\n\
    getcube 0\n\
    user b\n\
    getcube 0\n\
    user c\n\
    getcube 0\n";

/// The replies to alice, who gets the one node and sends two messages.
const TWO_MESSAGE_REPLIES: &str = "\
    machine 0\n\
    user alice\n\
    getcube 0\n\
    = granted mask 0 base 0\n\
    send 0 0 aa\n\
    = ok\n\
    send 0 0 bb\n\
    = ok\n";

/// Hello, and what became of its process.
pub(super) const HELLO: Row = Row {
    title: "hello",
    script: &[HELLO_START, HELLO_WORDS, HELLO_SPAWN, "run 10\ndump 0 0\n"],
    report: &[
        HELLO_REPLIES,
        "\
        run 10\n\
        = quiet\n\
        dump 0 0\n\
        = stopped exited 42\n",
        HELLO_CUBE,
        "host arm 10\n",
        HELLO_RUN,
        "end\n",
    ],
};

/// Without dispatches nothing starts, and without work nothing is spent.
pub(super) const NOTHING_ALLOWED: Row = Row {
    title: "nothing_allowed",
    script: &[
        HELLO_START,
        HELLO_WORDS,
        "\
        end\n\
        user alice\n\
        getcube 0\n\
        run 0\n\
        spawn hello 0 0\n\
        run 0\n",
    ],
    report: &[
        "machine 0\nuser alice\ngetcube 0\n= granted mask 0 base 0\n",
        "\
        run 0\n\
        = quiet\n\
        spawn hello 0 0\n\
        = ok\n\
        run 0\n\
        = spent\n\
        cube 0 user alice dim 0 mask 0 base 0\n\
        host arm 0\n\
        node 0 take 0 0 - idle\n\
        host look quiet\n\
        host spawn 0 hello 0.0 ok\n\
        host arm 0\n\
        node 0 take 0 0 - spent\n\
        host look spent\n\
        end\n",
    ],
};

/// The last dispatch is used, and the cube is quiet.
pub(super) const TIE: Row = Row {
    title: "tie",
    script: &[HELLO_START, HELLO_WORDS, HELLO_SPAWN, "run 1\n"],
    report: &[
        HELLO_REPLIES,
        "run 1\n= quiet\n",
        HELLO_CUBE,
        "host arm 1\n",
        HELLO_RUN,
        "end\n",
    ],
};

/// A block that was sent is gone for its sender.
pub(super) const GONE: Row = Row {
    title: "gone",
    script: &[
        "machine 0\nimage gone asm\n",
        GONE_BLOCK,
        "\
        end\n\
        user alice\n\
        getcube 0\n\
        spawn gone 0 0\n\
        run 10\n\
        dump 0 0\n\
        recv 0\n\
        trace\n",
    ],
    report: &[
        "machine 0\nuser alice\ngetcube 0\n= granted mask 0 base 0\n",
        "\
        spawn gone 0 0\n\
        = ok\n\
        run 10\n\
        = quiet\n\
        dump 0 0\n\
        = stopped gone 0x80000000\n\
        recv 0\n\
        = message 0.0 0700000000000000\n\
        trace\n\
        = entries 8\n\
        cube 0 user alice dim 0 mask 0 base 0\n\
        host spawn 0 gone 0.0 ok\n\
        host arm 10\n\
        node 0 take 0 0 - start 0 gone\n\
        node 0 send 0 0 host.0=0.0 0700000000000000\n\
        node 0 take 0 1 - idle\n\
        host look quiet\n\
        host arm 0\n\
        host get 0\n\
        end\n",
    ],
};

/// The greatest block, one byte more than it, and an empty one.
pub(super) const SIZES: Row = Row {
    title: "sizes",
    script: &[
        "machine 0\nimage sizes asm\n",
        BLOCK_SIZES,
        "\
        end\n\
        user a\n\
        getcube 0\n\
        spawn sizes 0 0\n\
        run 10\n\
        dump 0 0\n",
    ],
    report: &[
        "machine 0\nuser a\ngetcube 0\n= granted mask 0 base 0\n",
        "\
        spawn sizes 0 0\n\
        = ok\n\
        run 10\n\
        = quiet\n\
        dump 0 0\n\
        = stopped past end 0x80010000\n\
        cube 0 user a dim 0 mask 0 base 0\n\
        host spawn 0 sizes 0.0 ok\n\
        host arm 10\n\
        node 0 take 0 0 - start 0 sizes\n\
        node 0 note 0 2147483648\n\
        node 0 note 0 4096\n\
        node 0 note 0 0\n\
        node 0 note 0 2147549184\n\
        node 0 take 0 1 - idle\n\
        host look quiet\n\
        end\n",
    ],
};

/// A process has `WINDOW_COUNT` windows; a message that finds none left is its end, and the
/// message's block goes to the store.
pub(super) const WINDOWS: Row = Row {
    title: "windows",
    script: &[
        "machine 0\nimage windows asm\n",
        ALL_WINDOWS,
        "\
        end\n\
        image last asm\n\
                li s0, 33\n\
        loop:   li a0, 4\n\
                li a7, 1\n\
                ecall\n\
                addi s0, s0, -1\n\
                bne s0, zero, loop\n\
                li a1, -1\n\
                li a2, 0\n\
                li a7, 4\n\
                ecall\n\
                li a7, 13\n\
                ecall\n\
        end\n\
        user a\n\
        getcube 0\n\
        spawn windows 0 0\n\
        send 0 0 aa\n\
        run 10\n\
        dump 0 0\n\
        spawn last 0 1\n\
        run 10\n\
        recv 0\n\
        dump 0 1\n",
    ],
    report: &[
        "machine 0\nuser a\ngetcube 0\n= granted mask 0 base 0\n",
        "\
        spawn windows 0 0\n\
        = ok\n\
        send 0 0 aa\n\
        = ok\n\
        run 10\n\
        = quiet\n\
        dump 0 0\n\
        = stopped windows spent\n\
        spawn last 0 1\n\
        = ok\n\
        run 10\n\
        = quiet\n\
        recv 0\n\
        = message 0.1 00000000\n\
        dump 0 1\n\
        = stopped exited 0\n\
        cube 0 user a dim 0 mask 0 base 0\n\
        host spawn 0 windows 0.0 ok\n\
        host send 0 0 0.0=host.0 aa\n\
        host arm 10\n\
        node 0 take 0 0 - start 0 windows\n\
        node 0 note 0 0\n\
        node 0 take 1 0 - mail 0 0\n\
        node 0 take 0 1 - idle\n\
        host look quiet\n\
        host spawn 0 last 0.1 ok\n\
        host arm 10\n\
        node 0 take 0 1 - start 1 last\n\
        node 0 send 1 1 host.0=host.0 00000000\n\
        node 0 take 0 3 - idle\n\
        host look quiet\n\
        host arm 0\n\
        host get 1\n\
        end\n",
    ],
};

/// One block to several places, and each refusal, in its order.
pub(super) const XMSEND: Row = Row {
    title: "xmsend",
    script: &[
        "machine 0\nimage xmsend asm\n",
        MULTICAST,
        "end\nimage unread asm\n",
        UNREADABLE_LIST,
        "\
        end\n\
        user a\n\
        getcube 0\n\
        spawn xmsend 0 0\n\
        run 10\n\
        dump 0 0\n\
        freecube\n\
        getcube 0\n\
        spawn unread 0 0\n\
        run 10\n\
        dump 0 0\n",
    ],
    report: &[
        "machine 0\nuser a\ngetcube 0\n= granted mask 0 base 0\n",
        "\
        spawn xmsend 0 0\n\
        = ok\n\
        run 10\n\
        = quiet\n\
        dump 0 0\n\
        = stopped gone 0x80000000\n\
        freecube\n\
        = freed\n\
        getcube 0\n\
        = granted mask 0 base 0\n\
        spawn unread 0 0\n\
        = ok\n\
        run 10\n\
        = quiet\n\
        dump 0 0\n\
        = stopped unmapped 0x00030000\n\
        cube 0 user a dim 0 mask 0 base 0\n\
        host spawn 0 xmsend 0.0 ok\n\
        host arm 10\n\
        node 0 take 0 0 - start 0 xmsend\n\
        node 0 note 0 0\n\
        node 0 send 0 0 0.1=0.0,0.1=0.1 00000000\n\
        node 0 note 0 0\n\
        node 0 note 0 1\n\
        node 0 note 0 2\n\
        node 0 note 0 2\n\
        node 0 note 0 3\n\
        node 0 note 0 4\n\
        node 0 send 0 2 0.1=0.2,0.1=0.3,0.1=0.4,0.1=0.5,0.1=0.6,0.1=0.7,0.1=0.8,0.1=0.9,0.1=0.10,0.1=0.11,0.1=0.12,0.1=0.13,0.1=0.14,0.1=0.15,0.1=0.16,0.1=0.17,0.1=0.18,0.1=0.19,0.1=0.20,0.1=0.21,0.1=0.22,0.1=0.23,0.1=0.24,0.1=0.25,0.1=0.26,0.1=0.27,0.1=0.28,0.1=0.29,0.1=0.30,0.1=0.31 00000000\n\
        node 0 note 0 0\n\
        node 0 take 0 1 - idle\n\
        host look quiet\n\
        cube 1 user a dim 0 mask 0 base 0\n\
        host spawn 0 unread 0.0 ok\n\
        host arm 10\n\
        node 0 take 0 0 - start 0 unread\n\
        node 0 take 0 1 - idle\n\
        host look quiet\n\
        end\n",
    ],
};

/// Mail for a process that wasn't started waits for it.
pub(super) const UNBORN: Row = Row {
    title: "unborn",
    script: &[
        "\
        machine 0\n\
        image echo asm\n\
        loop: li a7, 7\n\
        ecall\n\
        li a1, -1\n\
        li a2, 0\n\
        li a7, 4\n\
        ecall\n\
        j loop\n\
        end\n\
        user alice\n\
        getcube 0\n\
        send 0 0 aa\n\
        send 0 0 bb\n\
        spawn echo 0 0\n\
        recv 100\n\
        recv 100\n\
        recv 100\n",
    ],
    report: &[
        TWO_MESSAGE_REPLIES,
        "\
        spawn echo 0 0\n\
        = ok\n\
        recv 100\n\
        = message 0.0 aa\n\
        recv 100\n\
        = message 0.0 bb\n\
        recv 100\n\
        = none\n\
        cube 0 user alice dim 0 mask 0 base 0\n\
        host send 0 0 0.0=host.0 aa\n\
        host send 0 1 0.0=host.1 bb\n\
        host spawn 0 echo 0.0 ok\n\
        host arm 100\n\
        host get -\n\
        node 0 take 0 0 - start 0 echo\n\
        host get -\n\
        node 0 take 1 0 - mail 0 0\n\
        node 0 send 0 2 host.0=host.0 aa\n\
        host get 2\n\
        host arm 100\n\
        host get -\n\
        node 0 take 1 0 - mail 0 1\n\
        node 0 send 0 3 host.0=host.1 bb\n\
        host get 3\n\
        host arm 100\n\
        host get -\n\
        node 0 take 1 0 - idle\n\
        host get -\n\
        host look quiet\n\
        end\n",
    ],
};

/// Mail for a process that has ended goes to the node's store.
pub(super) const DEAD: Row = Row {
    title: "dead",
    script: &[
        HELLO_START,
        HELLO_WORDS,
        HELLO_SPAWN,
        "\
        run 10\n\
        send 0 0 aa\n\
        run 10\n",
    ],
    report: &[
        HELLO_REPLIES,
        "\
        run 10\n\
        = quiet\n\
        send 0 0 aa\n\
        = ok\n\
        run 10\n\
        = quiet\n",
        HELLO_CUBE,
        "host arm 10\n",
        HELLO_RUN,
        "\
        host send 0 0 0.0=host.0 aa\n\
        host arm 10\n\
        node 0 take 0 1 - mail 0 0\n\
        node 0 take 0 1 - idle\n\
        host look quiet\n\
        end\n",
    ],
};

/// Two free nodes that are no subcube.
pub(super) const NO_FIT: Row = Row {
    title: "no_fit",
    script: &[
        THREE_CUBES,
        "\
        user a\n\
        freecube\n\
        user d\n\
        getcube 1\n\
        peek\n",
    ],
    report: &[
        "machine 2\nuser a\ngetcube 0\n= granted mask 0 base 0\n",
        "\
        freecube\n\
        = freed\n\
        user b\n\
        getcube 0\n\
        = granted mask 0 base 1\n\
        user c\n\
        getcube 0\n\
        = granted mask 0 base 2\n\
        user d\n\
        getcube 1\n\
        = none\n\
        peek\n\
        = free 2, b dim 0 mask 0 base 1, c dim 0 mask 0 base 2\n\
        cube 0 user a dim 0 mask 0 base 0\n\
        cube 1 user b dim 0 mask 0 base 1\n\
        cube 2 user c dim 0 mask 0 base 2\n\
        end\n",
    ],
};

/// A subcube whose nodes are not next to each other.
pub(super) const NOT_CONTIGUOUS: Row = Row {
    title: "not_contiguous",
    script: &[
        THREE_CUBES,
        "\
        user b\n\
        freecube\n\
        user d\n\
        getcube 1\n",
    ],
    report: &[
        "machine 2\nuser a\ngetcube 0\n= granted mask 0 base 0\n",
        "\
        user b\n\
        getcube 0\n\
        = granted mask 0 base 1\n\
        freecube\n\
        = freed\n\
        user c\n\
        getcube 0\n\
        = granted mask 0 base 2\n\
        user d\n\
        getcube 1\n\
        = granted mask 2 base 1\n\
        cube 0 user a dim 0 mask 0 base 0\n\
        cube 1 user b dim 0 mask 0 base 1\n\
        cube 2 user c dim 0 mask 0 base 2\n\
        cube 3 user d dim 1 mask 2 base 1\n\
        end\n",
    ],
};

/// The nodes of a cube are numbered anew: its process at 3 runs on node 7.
pub(super) const RENAMING: Row = Row {
    title: "renaming",
    script: &[
        "machine 3\nimage hello hex\n",
        HELLO_WORDS,
        "\
        end\n\
        user a\n\
        getcube 1\n\
        user b\n\
        getcube 1\n\
        user c\n\
        getcube 1\n\
        user b\n\
        freecube\n\
        user d\n\
        getcube 2\n\
        spawn hello 3 0\n\
        run 10\n",
    ],
    report: &[
        "machine 3\nuser a\ngetcube 1\n= granted mask 1 base 0\n",
        "\
        user b\n\
        getcube 1\n\
        = granted mask 1 base 2\n\
        freecube\n\
        = freed\n\
        user c\n\
        getcube 1\n\
        = granted mask 1 base 4\n\
        user d\n\
        getcube 2\n\
        = granted mask 5 base 2\n\
        spawn hello 3 0\n\
        = ok\n\
        run 10\n\
        = quiet\n\
        cube 0 user a dim 1 mask 1 base 0\n\
        cube 1 user b dim 1 mask 1 base 2\n\
        cube 2 user c dim 1 mask 1 base 4\n\
        cube 3 user d dim 2 mask 5 base 2\n\
        host spawn 0 hello 3.0 ok\n\
        host arm 10\n\
        node 0 take 0 0 - idle\n\
        node 1 take 0 0 - idle\n\
        node 2 take 0 0 - idle\n\
        node 3 take 0 0 - start 0 hello\n\
        node 3 note 0 42\n\
        node 0 take 0 0 - idle\n\
        node 1 take 0 0 - idle\n\
        node 2 take 0 0 - idle\n\
        node 3 take 0 1 - idle\n\
        host look quiet\n\
        end\n",
    ],
};

/// A node is given back with mail waiting, and the next user finds none.
pub(super) const USED_AGAIN: Row = Row {
    title: "used_again",
    script: &[
        "machine 0\nimage waiter asm\n",
        WAITER,
        "\
        end\n\
        user alice\n\
        getcube 0\n\
        send 0 0 aa\n\
        send 0 0 bb\n\
        send 0 0 cc\n\
        freecube\n\
        user bob\n\
        getcube 0\n\
        spawn waiter 0 0\n\
        run 10\n",
    ],
    report: &[
        TWO_MESSAGE_REPLIES,
        "\
        send 0 0 cc\n\
        = ok\n\
        freecube\n\
        = freed\n\
        user bob\n\
        getcube 0\n\
        = granted mask 0 base 0\n\
        spawn waiter 0 0\n\
        = ok\n\
        run 10\n\
        = quiet\n\
        cube 0 user alice dim 0 mask 0 base 0\n\
        host send 0 0 0.0=host.0 aa\n\
        host send 0 1 0.0=host.1 bb\n\
        host send 0 2 0.0=host.2 cc\n\
        cube 1 user bob dim 0 mask 0 base 0\n\
        host spawn 0 waiter 0.0 ok\n\
        host arm 10\n\
        node 0 take 0 0 - start 0 waiter\n\
        node 0 take 1 0 - idle\n\
        host look quiet\n\
        end\n",
    ],
};

/// Jumps to half words, taken and not taken, and one through the register that it writes.
pub(super) const JUMPS: Row = Row {
    title: "jumps",
    script: &[
        "\
        machine 0\n\
        image by_six hex\n\
        006000EF\n\
        end\n\
        image not_taken hex\n\
        00001363 00D00893 00000073\n\
        end\n\
        image taken hex\n\
        00000363\n\
        end\n\
        image old_ra asm\n\
                la ra, there\n\
                jalr ra, 0(ra)\n\
                ebreak\n\
        there:  mv a0, ra\n\
                li a7, 13\n\
                ecall\n\
        end\n\
        user a\n\
        getcube 0\n\
        spawn by_six 0 0\n\
        spawn not_taken 0 1\n\
        spawn taken 0 2\n\
        spawn old_ra 0 3\n\
        run 10\n\
        dump 0 0\n\
        dump 0 1\n\
        dump 0 2\n\
        dump 0 3\n",
    ],
    report: &[
        "machine 0\nuser a\ngetcube 0\n= granted mask 0 base 0\n",
        "\
        spawn by_six 0 0\n\
        = ok\n\
        spawn not_taken 0 1\n\
        = ok\n\
        spawn taken 0 2\n\
        = ok\n\
        spawn old_ra 0 3\n\
        = ok\n\
        run 10\n\
        = quiet\n\
        dump 0 0\n\
        = stopped target 0x00010000\n\
        dump 0 1\n\
        = stopped exited 0\n\
        dump 0 2\n\
        = stopped target 0x00010000\n\
        dump 0 3\n\
        = stopped exited 65548\n\
        cube 0 user a dim 0 mask 0 base 0\n\
        host spawn 0 by_six 0.0 ok\n\
        host spawn 0 not_taken 0.1 ok\n\
        host spawn 0 taken 0.2 ok\n\
        host spawn 0 old_ra 0.3 ok\n\
        host arm 10\n\
        node 0 take 0 0 - start 0 by_six\n\
        node 0 take 0 1 - start 1 not_taken\n\
        node 0 take 0 3 - start 2 taken\n\
        node 0 take 0 7 - start 3 old_ra\n\
        node 0 take 0 15 - idle\n\
        host look quiet\n\
        end\n",
    ],
};

/// A turn ends, and so does its process; others run on.
pub(super) const ENDLESS: Row = Row {
    title: "endless",
    script: &[
        "\
        machine 0\n\
        image spin hex\n\
        0000006F\n\
        end\n\
        image hello hex\n",
        HELLO_WORDS,
        "\
        end\n\
        user alice\n\
        getcube 0\n\
        spawn spin 0 0\n\
        spawn hello 0 1\n\
        run 10\n\
        dump 0 0\n\
        dump 0 1\n",
    ],
    report: &[
        "machine 0\nuser alice\ngetcube 0\n= granted mask 0 base 0\n",
        "\
        spawn spin 0 0\n\
        = ok\n\
        spawn hello 0 1\n\
        = ok\n\
        run 10\n\
        = quiet\n\
        dump 0 0\n\
        = stopped turn spent\n\
        dump 0 1\n\
        = stopped exited 42\n\
        cube 0 user alice dim 0 mask 0 base 0\n\
        host spawn 0 spin 0.0 ok\n\
        host spawn 0 hello 0.1 ok\n\
        host arm 10\n\
        node 0 take 0 0 - start 0 spin\n\
        node 0 take 0 1 - start 1 hello\n\
        node 0 note 1 42\n\
        node 0 take 0 3 - idle\n\
        host look quiet\n\
        end\n",
    ],
};

/// Commands that are refused.
pub(super) const REFUSED_COMMANDS: Row = Row {
    title: "refused_commands",
    script: &[
        HELLO_START,
        HELLO_WORDS,
        "end\nimage waiter asm\n",
        WAITER,
        "\
        end\n\
        user alice\n\
        run 1\n\
        getcube 0\n\
        getcube 0\n\
        spawn hello 1 0\n\
        kill 0 5\n\
        spawn waiter 0 0\n\
        kill 0 0\n\
        kill 0 0\n\
        spawn waiter 0 0\n\
        run 10\n\
        dump 0 0\n",
    ],
    report: &[
        "\
        machine 0\n\
        user alice\n\
        run 1\n\
        = no cube\n\
        getcube 0\n\
        = granted mask 0 base 0\n\
        getcube 0\n\
        = held\n\
        spawn hello 1 0\n\
        = no place\n\
        kill 0 5\n\
        = unused\n\
        spawn waiter 0 0\n\
        = ok\n\
        kill 0 0\n\
        = ok\n\
        kill 0 0\n\
        = already\n\
        spawn waiter 0 0\n\
        = used\n\
        run 10\n\
        = quiet\n\
        dump 0 0\n\
        = stopped killed\n\
        cube 0 user alice dim 0 mask 0 base 0\n\
        host kill 0 0.5 unused\n\
        host spawn 0 waiter 0.0 ok\n\
        host kill 0 0.0 ok\n\
        host kill 0 0.0 already\n\
        host spawn 0 waiter 0.0 used\n\
        host arm 10\n\
        node 0 take 0 0 - start 0 waiter\n\
        node 0 take 1 0 - kill 0\n\
        node 0 take 0 1 - idle\n\
        host look quiet\n\
        end\n",
    ],
};

/// Hello, its image as RKI1.
pub(super) const IMAGE_AS_BYTES: Row = Row {
    title: "image_as_bytes",
    script: &[
        "\
        machine 0\n\
        image hello rki\n\
        524b4931 00000100 14000000 00000000 1305a002 9308e000 73000000 9308d000 73000000\n",
        HELLO_SPAWN,
        "run 10\n",
    ],
    report: HELLO_REPORT,
};

/// A script of comments alone.
pub(super) const NO_STATEMENTS: Row = Row {
    title: "no_statements",
    script: &[
        "\
        # nothing\n\
        \n\
           \t# at all\n",
    ],
    report: &[],
};

/// A machine without users.
pub(super) const NO_USERS: Row = Row {
    title: "no_users",
    script: &["machine 0\n"],
    report: &["machine 0\nend\n"],
};

/// Each cause by which an instruction or a call stops a process.
pub(super) const STOP_CAUSES: Row = Row {
    title: "stop_causes",
    script: &[
        "\
        machine 0\n\
        image exits asm\n\
        li a0, 7\n\
        li a7, 13\n\
        ecall\n\
        end\n\
        image illegal hex\n\
        FFFFFFFF\n\
        end\n\
        image fetches asm\n\
        jalr zero, 0(sp)\n\
        end\n\
        image target hex\n\
        006000EF\n\
        end\n\
        image misaligned asm\n\
        lw t0, 1(sp)\n\
        end\n\
        image unmapped asm\n\
        lw t0, 0(sp)\n\
        end\n\
        image breaks asm\n\
        ebreak\n\
        end\n\
        image nocall asm\n\
        li a7, 15\n\
        ecall\n\
        end\n\
        image waits asm\n",
        WAIT,
        "\
        end\n\
        image notablock asm\n\
        li a0, 3\n\
        li a7, 3\n\
        ecall\n\
        end\n\
        image pastend asm\n\
        li a0, 0\n\
        li a7, 1\n\
        ecall\n\
        lb t1, 0(a0)\n\
        end\n\
        image gone asm\n",
        GONE_BLOCK,
        "\
        end\n\
        image spin asm\n\
        loop: j loop\n\
        end\n\
        user a\n\
        getcube 0\n\
        spawn exits 0 0\n\
        spawn illegal 0 1\n\
        spawn fetches 0 2\n\
        spawn target 0 3\n\
        spawn misaligned 0 4\n\
        spawn unmapped 0 5\n\
        spawn breaks 0 6\n\
        spawn nocall 0 7\n\
        run 10\n\
        dump 0 0\n\
        dump 0 1\n\
        dump 0 2\n\
        dump 0 3\n\
        dump 0 4\n\
        dump 0 5\n\
        dump 0 6\n\
        dump 0 7\n\
        freecube\n\
        getcube 0\n\
        spawn waits 0 0\n\
        spawn notablock 0 1\n\
        spawn pastend 0 2\n\
        spawn gone 0 3\n\
        spawn spin 0 4\n\
        run 10\n\
        kill 0 0\n\
        run 10\n\
        dump 0 0\n\
        dump 0 1\n\
        dump 0 2\n\
        dump 0 3\n\
        dump 0 4\n",
    ],
    report: &[
        "machine 0\nuser a\ngetcube 0\n= granted mask 0 base 0\n",
        "\
        spawn exits 0 0\n\
        = ok\n\
        spawn illegal 0 1\n\
        = ok\n\
        spawn fetches 0 2\n\
        = ok\n\
        spawn target 0 3\n\
        = ok\n\
        spawn misaligned 0 4\n\
        = ok\n\
        spawn unmapped 0 5\n\
        = ok\n\
        spawn breaks 0 6\n\
        = ok\n\
        spawn nocall 0 7\n\
        = ok\n\
        run 10\n\
        = quiet\n\
        dump 0 0\n\
        = stopped exited 7\n\
        dump 0 1\n\
        = stopped illegal 0x00010000 0xffffffff\n\
        dump 0 2\n\
        = stopped fetch 0x00030000\n\
        dump 0 3\n\
        = stopped target 0x00010000\n\
        dump 0 4\n\
        = stopped misaligned 0x00030001\n\
        dump 0 5\n\
        = stopped unmapped 0x00030000\n\
        dump 0 6\n\
        = stopped break 0x00010000\n\
        dump 0 7\n\
        = stopped no call 15\n\
        freecube\n\
        = freed\n\
        getcube 0\n\
        = granted mask 0 base 0\n\
        spawn waits 0 0\n\
        = ok\n\
        spawn notablock 0 1\n\
        = ok\n\
        spawn pastend 0 2\n\
        = ok\n\
        spawn gone 0 3\n\
        = ok\n\
        spawn spin 0 4\n\
        = ok\n\
        run 10\n\
        = quiet\n\
        kill 0 0\n\
        = ok\n\
        run 10\n\
        = quiet\n\
        dump 0 0\n\
        = stopped killed\n\
        dump 0 1\n\
        = stopped not a block 0x00000003\n\
        dump 0 2\n\
        = stopped past end 0x80000000\n\
        dump 0 3\n\
        = stopped gone 0x80000000\n\
        dump 0 4\n\
        = stopped turn spent\n\
        cube 0 user a dim 0 mask 0 base 0\n\
        host spawn 0 exits 0.0 ok\n\
        host spawn 0 illegal 0.1 ok\n\
        host spawn 0 fetches 0.2 ok\n\
        host spawn 0 target 0.3 ok\n\
        host spawn 0 misaligned 0.4 ok\n\
        host spawn 0 unmapped 0.5 ok\n\
        host spawn 0 breaks 0.6 ok\n\
        host spawn 0 nocall 0.7 ok\n\
        host arm 10\n\
        node 0 take 0 0 - start 0 exits\n\
        node 0 take 0 1 - start 1 illegal\n\
        node 0 take 0 3 - start 2 fetches\n\
        node 0 take 0 7 - start 3 target\n\
        node 0 take 0 15 - start 4 misaligned\n\
        node 0 take 0 31 - start 5 unmapped\n\
        node 0 take 0 63 - start 6 breaks\n\
        node 0 take 0 127 - start 7 nocall\n\
        node 0 take 0 255 - idle\n\
        host look quiet\n\
        cube 1 user a dim 0 mask 0 base 0\n\
        host spawn 0 waits 0.0 ok\n\
        host spawn 0 notablock 0.1 ok\n\
        host spawn 0 pastend 0.2 ok\n\
        host spawn 0 gone 0.3 ok\n\
        host spawn 0 spin 0.4 ok\n\
        host arm 10\n\
        node 0 take 0 0 - start 0 waits\n\
        node 0 take 1 0 - start 1 notablock\n\
        node 0 take 1 2 - start 2 pastend\n\
        node 0 take 1 6 - start 3 gone\n\
        node 0 send 3 0 host.0=0.0 0700000000000000\n\
        node 0 take 1 14 - start 4 spin\n\
        node 0 take 1 30 - idle\n\
        host look quiet\n\
        host kill 0 0.0 ok\n\
        host arm 10\n\
        node 0 take 1 30 - kill 0\n\
        node 0 take 0 31 - idle\n\
        host look quiet\n\
        end\n",
    ],
};

/// The counted call past a turn's limit stops the process before its own tests.
pub(super) const TURN_LIMIT: Row = Row {
    title: "turn_limit",
    script: &[
        "\
        machine 0\n\
        image calls asm\n\
                li s0, 4095\n\
        loop:   li a0, 0\n\
                li a1, 9\n\
                li a2, 0\n\
                li a7, 8\n\
                ecall\n\
                addi s0, s0, -1\n\
                bne s0, zero, loop\n\
                li a7, 14\n\
                ecall\n\
                li a0, 0\n\
                li a7, 5\n\
                ecall\n\
        end\n\
        user a\n\
        getcube 0\n\
        spawn calls 0 0\n\
        run 10\n\
        dump 0 0\n",
    ],
    report: &[
        "machine 0\nuser a\ngetcube 0\n= granted mask 0 base 0\n",
        "\
        spawn calls 0 0\n\
        = ok\n\
        run 10\n\
        = quiet\n\
        dump 0 0\n\
        = stopped turn spent\n\
        cube 0 user a dim 0 mask 0 base 0\n\
        host spawn 0 calls 0.0 ok\n\
        host arm 10\n\
        node 0 take 0 0 - start 0 calls\n\
        node 0 note 0 1\n\
        node 0 take 0 1 - idle\n\
        host look quiet\n\
        end\n",
    ],
};

/// Of two processes that poll, the one that polls longest is told first.
pub(super) const LONGEST_POLLER: Row = Row {
    title: "longest_poller",
    script: &[
        "\
        machine 0\n\
        image polls asm\n\
        loop:   li a7, 6\n\
                ecall\n\
                li a7, 14\n\
                ecall\n\
                j loop\n\
        end\n\
        user a\n\
        getcube 0\n\
        spawn polls 0 0\n\
        spawn polls 0 1\n\
        run 5\n\
        send 0 0 aa\n\
        run 1\n\
        kill 0 1\n\
        run 1\n\
        dump 0 0\n\
        dump 0 1\n",
    ],
    report: &[
        "machine 0\nuser a\ngetcube 0\n= granted mask 0 base 0\n",
        "\
        spawn polls 0 0\n\
        = ok\n\
        spawn polls 0 1\n\
        = ok\n\
        run 5\n\
        = spent\n\
        send 0 0 aa\n\
        = ok\n\
        run 1\n\
        = spent\n\
        kill 0 1\n\
        = ok\n\
        run 1\n\
        = spent\n\
        dump 0 0\n\
        = polling\n\
        dump 0 1\n\
        = stopped killed\n\
        cube 0 user a dim 0 mask 0 base 0\n\
        host spawn 0 polls 0.0 ok\n\
        host spawn 0 polls 0.1 ok\n\
        host arm 5\n\
        node 0 take 0 0 - start 0 polls\n\
        node 0 take 1 0 0 start 1 polls\n\
        node 0 take 3 0 0 poll 0\n\
        node 0 note 0 0\n\
        node 0 take 3 0 1 poll 1\n\
        node 0 note 1 0\n\
        node 0 take 3 0 0 poll 0\n\
        node 0 note 0 0\n\
        node 0 take 3 0 1 spent\n\
        host look spent\n\
        host send 0 0 0.0=host.0 aa\n\
        host arm 1\n\
        node 0 take 3 0 1 mail 0 0\n\
        node 0 note 0 2147483648\n\
        node 0 take 3 0 1 spent\n\
        host look spent\n\
        host kill 0 0.1 ok\n\
        host arm 1\n\
        node 0 take 3 0 1 kill 1\n\
        node 0 take 1 2 0 spent\n\
        host look spent\n\
        end\n",
    ],
};

/// What a process is answered that starts and kills others, and sends.
pub(super) const ANSWERS: Row = Row {
    title: "answers",
    script: &[
        "machine 0\nimage waits asm\n",
        WAIT,
        "\
        end\n\
        image asks asm\n",
        REQUESTS,
        "\
        end\n\
        user a\n\
        getcube 0\n\
        spawn asks 0 0\n\
        run 10\n\
        send 0 0 aa\n\
        run 10\n\
        dump 0 0\n\
        dump 0 1\n",
    ],
    report: &[
        "machine 0\nuser a\ngetcube 0\n= granted mask 0 base 0\n",
        "\
        spawn asks 0 0\n\
        = ok\n\
        run 10\n\
        = quiet\n\
        send 0 0 aa\n\
        = ok\n\
        run 10\n\
        = quiet\n\
        dump 0 0\n\
        = stopped exited 9\n\
        dump 0 1\n\
        = stopped killed\n\
        cube 0 user a dim 0 mask 0 base 0\n\
        host spawn 0 asks 0.0 ok\n\
        host arm 10\n\
        node 0 take 0 0 - start 0 asks\n\
        node 0 spawn 0 waits 0.1 ok\n\
        node 0 note 0 0\n\
        node 0 spawn 0 waits 0.1 used\n\
        node 0 note 0 2\n\
        node 0 note 0 3\n\
        node 0 note 0 1\n\
        node 0 kill 0 0.1 ok\n\
        node 0 note 0 0\n\
        node 0 kill 0 0.1 already\n\
        node 0 note 0 3\n\
        node 0 kill 0 0.5 unused\n\
        node 0 note 0 2\n\
        node 0 note 0 1\n\
        node 0 note 0 1\n\
        node 0 send 0 0 host.0=0.0 00000000\n\
        node 0 note 0 0\n\
        node 0 take 0 1 - start 1 waits\n\
        node 0 take 2 1 - kill 1\n\
        node 0 take 0 3 - idle\n\
        host look quiet\n\
        host send 0 1 0.0=host.0 aa\n\
        host arm 10\n\
        node 0 take 0 3 - mail 0 1\n\
        node 0 take 0 3 - idle\n\
        host look quiet\n\
        end\n",
    ],
};

/// A process asks where it is.
pub(super) const NUMBERS: Row = Row {
    title: "numbers",
    script: &[
        "\
        machine 1\n\
        image numbers asm\n\
                li a7, 10\n\
                ecall\n\
                li a7, 14\n\
                ecall\n\
                li a7, 11\n\
                ecall\n\
                li a7, 14\n\
                ecall\n\
                li a7, 12\n\
                ecall\n\
                li a7, 14\n\
                ecall\n\
                li a7, 13\n\
                ecall\n\
        end\n\
        user a\n\
        getcube 1\n\
        spawn numbers 1 5\n\
        run 10\n\
        dump 1 5\n",
    ],
    report: &[
        "machine 1\nuser a\ngetcube 1\n= granted mask 1 base 0\n",
        "\
        spawn numbers 1 5\n\
        = ok\n\
        run 10\n\
        = quiet\n\
        dump 1 5\n\
        = stopped exited 2\n\
        cube 0 user a dim 1 mask 1 base 0\n\
        host spawn 0 numbers 1.5 ok\n\
        host arm 10\n\
        node 0 take 0 0 - idle\n\
        node 1 take 0 0 - start 5 numbers\n\
        node 1 note 5 1\n\
        node 1 note 5 5\n\
        node 1 note 5 2\n\
        node 0 take 0 0 - idle\n\
        node 1 take 0 32 - idle\n\
        host look quiet\n\
        end\n",
    ],
};
