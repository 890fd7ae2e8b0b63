//! Programs in assembly that the worked rows of more than one crate run.
#![tactic(auto)]

/// Waits for a message.
pub const WAIT: &str = "\
        li a7, 7\n\
        ecall\n";

/// For a machine of one node with two images: starts the first image as process 1 twice, and asks
/// for an image and for a node that aren't there; kills process 1 twice, one that wasn't started,
/// and one at a node that isn't there; and sends a block to a place that is none, and then to the
/// host. It notes each answer, and exits with 9.
pub const REQUESTS: &str = "\
        li a0, 0\n\
        li a1, 0\n\
        li a2, 1\n\
        li a7, 8\n\
        ecall\n\
        li a7, 14\n\
        ecall\n\
        li a0, 0\n\
        li a7, 8\n\
        ecall\n\
        li a7, 14\n\
        ecall\n\
        li a0, 2\n\
        li a7, 8\n\
        ecall\n\
        li a7, 14\n\
        ecall\n\
        li a0, 2\n\
        li a1, 1\n\
        li a7, 8\n\
        ecall\n\
        li a7, 14\n\
        ecall\n\
        li a0, 0\n\
        li a1, 1\n\
        li a7, 9\n\
        ecall\n\
        li a7, 14\n\
        ecall\n\
        li a0, 0\n\
        li a7, 9\n\
        ecall\n\
        li a7, 14\n\
        ecall\n\
        li a0, 0\n\
        li a1, 5\n\
        li a7, 9\n\
        ecall\n\
        li a7, 14\n\
        ecall\n\
        li a0, 1\n\
        li a1, 0\n\
        li a7, 9\n\
        ecall\n\
        li a7, 14\n\
        ecall\n\
        li a0, 4\n\
        li a7, 1\n\
        ecall\n\
        mv s0, a0\n\
        li a1, 0\n\
        li a2, 8\n\
        li a7, 4\n\
        ecall\n\
        li a7, 14\n\
        ecall\n\
        mv a0, s0\n\
        li a1, -1\n\
        li a2, 0\n\
        li a7, 4\n\
        ecall\n\
        li a7, 14\n\
        ecall\n\
        li a0, 9\n\
        li a7, 13\n\
        ecall\n";

/// Sends a block with the word 7 to the host, and reads the block that it gave away.
pub const GONE_BLOCK: &str = "\
        li a0, 8\n\
        li a7, 1\n\
        ecall\n\
        mv s0, a0\n\
        li t0, 7\n\
        sw t0, 0(s0)\n\
        li a1, -1\n\
        li a2, 0\n\
        li a7, 4\n\
        ecall\n\
        lw t1, 0(s0)\n";

/// Asks for the greatest block, for one of a byte more and for an empty one, and notes each answer;
/// writes the last word of the greatest and notes its length, and in the end reads the empty one.
pub const BLOCK_SIZES: &str = "\
        li a0, 4096\n\
        li a7, 1\n\
        ecall\n\
        mv s0, a0\n\
        li a7, 14\n\
        ecall\n\
        li t0, 4092\n\
        add t0, s0, t0\n\
        li t1, 5\n\
        sw t1, 0(t0)\n\
        mv a0, s0\n\
        li a7, 3\n\
        ecall\n\
        li a7, 14\n\
        ecall\n\
        li a0, 4097\n\
        li a7, 1\n\
        ecall\n\
        li a7, 14\n\
        ecall\n\
        li a0, 0\n\
        li a7, 1\n\
        ecall\n\
        li a7, 14\n\
        ecall\n\
        lb t0, 0(a0)\n";

/// Takes and frees a block 32,768 times, each at a window of its own; then asks for one more, notes
/// the answer, and waits for a message.
pub const ALL_WINDOWS: &str = "\
        li s0, 32768\n\
loop:   li a0, 4\n\
        li a7, 1\n\
        ecall\n\
        li a7, 2\n\
        ecall\n\
        addi s0, s0, -1\n\
        bne s0, zero, loop\n\
        li a0, 4\n\
        li a7, 1\n\
        ecall\n\
        li a7, 14\n\
        ecall\n\
        li a7, 7\n\
        ecall\n";

/// Has three blocks: sends the first to no place, the second to two places, and the third, in vain,
/// to a place that is none, to 34 places, to 31 and to 65, and then to 30. It notes each answer,
/// and the third block's length before it leaves; in the end it asks for the length of the first
/// block, which has left.
pub const MULTICAST: &str = "\
        li a0, 4\n\
        li a7, 1\n\
        ecall\n\
        mv s0, a0\n\
        li a1, 0\n\
        li a7, 5\n\
        ecall\n\
        li a7, 14\n\
        ecall\n\
        li a0, 4\n\
        li a7, 1\n\
        ecall\n\
        li a1, 2\n\
        la a2, same\n\
        li a7, 5\n\
        ecall\n\
        li a7, 14\n\
        ecall\n\
        li a0, 4\n\
        li a7, 1\n\
        ecall\n\
        mv s1, a0\n\
        li a1, 2\n\
        la a2, other\n\
        li a7, 5\n\
        ecall\n\
        li a7, 14\n\
        ecall\n\
        mv a0, s1\n\
        li a1, 34\n\
        la a2, same\n\
        li a7, 5\n\
        ecall\n\
        li a7, 14\n\
        ecall\n\
        mv a0, s1\n\
        li a1, 31\n\
        li a7, 5\n\
        ecall\n\
        li a7, 14\n\
        ecall\n\
        mv a0, s1\n\
        li a1, 65\n\
        li a7, 5\n\
        ecall\n\
        li a7, 14\n\
        ecall\n\
        mv a0, s1\n\
        li a7, 3\n\
        ecall\n\
        li a7, 14\n\
        ecall\n\
        mv a0, s1\n\
        li a1, 30\n\
        li a7, 5\n\
        ecall\n\
        li a7, 14\n\
        ecall\n\
        mv a0, s0\n\
        li a7, 3\n\
        ecall\n\
other:  .word 0, 1, 9, 0\n\
same:\n\
        .word 0, 1, 0, 1, 0, 1, 0, 1, 0, 1, 0, 1, 0, 1, 0, 1, 0, 1, 0, 1, 0, 1, 0, 1, 0, 1, 0, 1, 0, 1, 0, 1, 0, 1\n\
        .word 0, 1, 0, 1, 0, 1, 0, 1, 0, 1, 0, 1, 0, 1, 0, 1, 0, 1, 0, 1, 0, 1, 0, 1, 0, 1, 0, 1, 0, 1, 0, 1, 0, 1\n";

/// Sends a block by a list of two places, of which the first is none, and the second lies behind
/// private memory.
pub const UNREADABLE_LIST: &str = "\
        li a0, 4\n\
        li a7, 1\n\
        ecall\n\
        li a2, 0x2FFF8\n\
        li t0, 9\n\
        sw t0, 0(a2)\n\
        li a1, 2\n\
        li a7, 5\n\
        ecall\n";
