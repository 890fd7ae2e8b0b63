ghost use Rattle.std.specs.Prelude.{◌≡◌, ◌<◌, ◌≤◌, ◌||◌, not, nat_lt, length, slice_get, if◌then◌else◌, IsTrue, IsSome, IfSome, Some, None, []};
ghost use Rattle.ce_model.specs.Limits.{window_count, block_room};
ghost use Rattle.ce_model.specs.Space.{window_start, window_of, is_window_start, has_unused_window, block_at_window, block_named};
ghost use Rattle.ce_model.specs.Node.{process_at, with_process};
ghost use Rattle.ce_model.specs.Kernel.{process_left_behind, return_outcome, stop_outcome, free_outcome, map_outcome, xmalloc, length_outcome};
ghost use Rattle.xm_owner.specs.Holdings.{block_held_at};
ghost use Rattle.rk_node.specs.Standing.{node_model, turn_model};
ghost use Rattle.rk_node.specs.Ready.{IsInTurn, HasRoom};
ghost use Rattle.rk_node.specs.Moves.{with_mapped_block, IsWindowOfAddress};
ghost use Rattle.rk_node.specs.Wording.{HasDoneCall};
ghost use Rattle.rk_node.specs.BlockCalls.{HasDoneBlockCall};

use crate::node::Node;
use crate::pid::Pid;
use crate::turn::{CallEnd, Turn};
use ce_model::calls::{DONE, NO_ADDRESS};
use ce_model::{BLOCK_ROOM, Stop, WINDOW_BASE, WINDOW_COUNT, WINDOW_SIZE};
use xm_block::Block;

impl Node {
    /// The block at a window of a process that the address names, by its window: the address is the
    /// start of a window that holds one.
    pub fn block_named(&self, pid: Pid, address: u32) -> Result<u32, Stop>
        ensures { IsWindowOfAddress (block_held_at self.now.held_blocks.mappings pid.number)
            (block_named (process_at (node_model self.now) pid.number).space address) result }
    {
        match window_at(address) {
            Some(window) => self.block_at(pid, window, address),
            None => Err(Stop::NotABlock(address)),
        }
    }

    /// The block at the window that begins at an address, by its window.
    fn block_at(&self, pid: Pid, window: u32, address: u32) -> Result<u32, Stop>
        requires { window ≡ window_of address }
        ensures { IsWindowOfAddress (block_held_at self.now.held_blocks.mappings pid.number)
            (block_at_window
            (slice_get (process_at (node_model self.now) pid.number).space.windows window) address)
            result }
    {
        if window >= self.processes[pid.number as usize].windows() {
            return Err(Stop::NotABlock(address));
        }
        match self.held_blocks.get(pid.number, window) {
            Some(_) => Ok(window),
            None => Err(Stop::Gone(address)),
        }
    }

    /// A further window of the process can be used.
    pub fn has_unused_window(&self, pid: Pid) -> bool
        ensures { result ≡ has_unused_window (process_at (node_model self.now) pid.number).space }
    {
        self.processes[pid.number as usize].windows() < WINDOW_COUNT
    }

    /// Maps a block at the next window of a process, and answers where the window begins.
    pub fn map(&mut self, pid: Pid, block: Block) -> u32
        requires room { HasRoom self.old }
        requires unused { IsTrue
            (has_unused_window (process_at (node_model self.old) pid.number).space) }
        ensures start { result
            ≡ window_start (length (process_at (node_model self.old) pid.number).space.windows) }
        ensures node { node_model self.new ≡ with_process (node_model self.old) pid.number
            (with_mapped_block block (process_at (node_model self.old) pid.number)) }
        ensures batch { self.new.batch ≡ self.old.batch }
        ensures room { self.new.room ≡ self.old.room }
    {
        let process = &mut self.processes[pid.number as usize];
        let window = process.give_window();
        self.held_blocks.map(pid.number, window, block);
        window_start(window)
    }

    /// Takes the block out of a window of a process, which holds one.
    pub fn take_out(&mut self, pid: Pid, window: u32) -> Block
        requires { IsSome (block_held_at self.old.held_blocks.mappings pid.number window) }
        ensures block { block_held_at self.old.held_blocks.mappings pid.number window
            ≡ Some result }
        ensures node { node_model self.new ≡ with_process (node_model self.old) pid.number
            (process_left_behind window (process_at (node_model self.old) pid.number)) }
        ensures room { HasRoom self.new }
        ensures batch { self.new.batch ≡ self.old.batch }
        ensures size { self.new.room ≡ self.old.room }
    {
        match self.held_blocks.unmap(pid.number, window) {
            Some(block) => block,
            None => unreachable!(),
        }
    }

    /// The call returns at once.
    pub fn return_value(&mut self, turn: Turn, value: u32) -> CallEnd
        requires { self.old.batch ≡ Some [] }
        ensures { HasDoneCall (λ node turn p. return_outcome node turn p value)
            self.old self.new (turn_model turn) (turn_model turn) result }
    {
        self.answer(turn.pid, value);
        CallEnd::Continuation
    }

    /// The process of the turn stops.
    pub fn stop_turn(&mut self, turn: Turn, cause: Stop) -> CallEnd
        requires { IsInTurn self.old (turn_model turn) }
        ensures { HasDoneCall (λ node turn p. stop_outcome node turn p cause)
            self.old self.new (turn_model turn) (turn_model turn) result }
    {
        self.stop(turn.pid, cause);
        CallEnd::TurnConclusion
    }

    /// xmalloc: the store's least block is mapped at the next window, with so many zero bytes;
    /// where that can't be, the answer is 0.
    pub fn xmalloc(&mut self, turn: Turn) -> CallEnd
        requires { IsInTurn self.old (turn_model turn) }
        ensures { HasDoneCall xmalloc self.old self.new (turn_model turn) (turn_model turn) result }
    {
        let length = self.argument(turn.pid, 0);
        if self.cannot_map(turn.pid, length) {
            self.return_value(turn, NO_ADDRESS)
        } else {
            self.map_least_block(turn, length)
        }
    }

    /// A block of this length can't be mapped: it would be too long, or no window is left.
    #[tactic(auto, unfolding(ce_model::specs::Limits::block_room))]
    fn cannot_map(&self, pid: Pid, length: u32) -> bool
        ensures { result ≡ (nat_lt block_room length
            || not (has_unused_window (process_at (node_model self.now) pid.number).space)) }
    {
        length > BLOCK_ROOM || !self.has_unused_window(pid)
    }

    /// The store's least block is mapped at the next window; where the store is empty, the answer
    /// is 0.
    fn map_least_block(&mut self, turn: Turn, length: u32) -> CallEnd
        requires ready { IsInTurn self.old (turn_model turn) }
        requires length { length ≤ block_room }
        requires unused { IsTrue
            (has_unused_window (process_at (node_model self.old) turn.pid.number).space) }
        ensures { HasDoneCall (λ node turn p. map_outcome node turn p length node.store)
            self.old self.new (turn_model turn) (turn_model turn) result }
    {
        match self.store.take_least() {
            None => self.return_value(turn, NO_ADDRESS),
            Some(mut block) => {
                block.reset(length);
                let address = self.map(turn.pid, block);
                self.return_value(turn, address)
            }
        }
    }

    /// xfree of the block at a window: it goes to the store, and the answer is 0.
    pub fn free_block(&mut self, turn: Turn, window: u32) -> CallEnd
        requires ready { IsInTurn self.old (turn_model turn) }
        requires held { IsSome
            (block_held_at self.old.held_blocks.mappings turn.pid.number window) }
        ensures { HasDoneBlockCall window free_outcome self.old self.new (turn_model turn) result }
    {
        let block = self.take_out(turn.pid, window);
        self.give(block);
        self.return_value(turn, DONE)
    }

    /// xlength of the block at a window: the answer is its length.
    pub fn return_length(&mut self, turn: Turn, window: u32) -> CallEnd
        requires { IsInTurn self.old (turn_model turn) }
        ensures { HasDoneBlockCall window length_outcome self.old self.new (turn_model turn)
            result }
    {
        let length = self.length_at(turn.pid, window);
        self.return_value(turn, length)
    }

    /// The length of the block at a window, which holds one.
    fn length_at(&self, pid: Pid, window: u32) -> u32
        ensures { IfSome (block_held_at self.now.held_blocks.mappings pid.number window)
            (λ block. result ≡ length block.bytes) }
    {
        match self.held_blocks.get(pid.number, window) {
            Some(block) => block.length(),
            None => 0,
        }
    }
}

/// Where a window begins.
#[tactic(auto, unfolding(ce_model::specs::Limits::window_count, ce_model::specs::Limits::window_base, ce_model::specs::Limits::window_size))]
fn window_start(window: u32) -> u32
    requires { window < window_count }
    ensures { result ≡ window_start window }
{
    WINDOW_BASE + window * WINDOW_SIZE
}

/// The window that begins at an address, if one does.
#[tactic(auto, unfolding(ce_model::specs::Limits::window_base, ce_model::specs::Limits::window_size))]
fn window_at(address: u32) -> Option<u32>
    ensures { result ≡ (if is_window_start address then Some (window_of address) else None) }
{
    if address >= WINDOW_BASE && (address - WINDOW_BASE).is_multiple_of(WINDOW_SIZE) {
        Some((address - WINDOW_BASE) / WINDOW_SIZE)
    } else {
        None
    }
}
