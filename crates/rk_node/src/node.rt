ghost use Rattle.std.specs.Prelude.{◌≡◌, ◌==◌, ◌≤◌, replicate, position, IfOk};
ghost use Rattle.std.specs.VecDeque.{deque_capacity};
ghost use Rattle.ce_model.specs.declared.calls.TheConstants.{NUMBER_ARGUMENT};
ghost use Rattle.ce_model.specs.Limits.{greatest_dim, process_count, home_blocks};
ghost use Rattle.rk_process.specs.OwnStates.{unborn_state};
ghost use Rattle.rk_node.specs.Tables.{IsStocked, IsStocked-prop};

use crate::pid::Pid;
use crate::turn::Turn;
use ce_model::{NoMemory, PROCESS_COUNT, Status, Stop};
use rk_mail::Batch;
use rk_process::Process;
use rv_model::{A0, Register};
use std::alloc::Global;
use std::collections::VecDeque;
use xm_block::{Block, Store};
use xm_owner::HeldBlocks;

/// A node: its number in its cube, the cube's dimension, the home of its blocks, for how many
/// blocks it has room, how many images there are, its processes by id, the blocks that they hold,
/// its store, the ids in `xrecv`, longest first, its turn, and the spare batch, which is away while
/// a message is out. There are as many processes as ids; blocks are held in windows that were used,
/// in order; the store and the table of held blocks have each room for all that the node has room
/// for; and there is memory for the list of those that poll.
#[derive(Drop)]
pub(crate) struct Node {
    pub home: u32,
    pub room: u32,
    pub number: u32,
    pub dim: u32,
    pub images: u32,
    pub processes: Vec<Process>,
    pub held_blocks: HeldBlocks,
    pub store: Store,
    pub polling_ids: VecDeque<u32>,
    pub turn: Option<Turn>,
    pub batch: Option<Batch>,
    ghost few_nodes: { dim ≤ greatest_dim },
    ghost poll_room: { process_count ≤ deque_capacity polling_ids },
    ghost stocked: { IsStocked room processes.items held_blocks store } by { IsStocked-prop },
}

impl Node {
    ghost use Rattle.ce_model.specs.Blocks.{with_id};
    ghost use Rattle.ce_model.specs.Process.{argument, with_answer};
    ghost use Rattle.ce_model.specs.Node.{process_at, with_process, without_poller, with_stopped_process};
    ghost use Rattle.ce_model.specs.Kernel.{with_store};
    ghost use Rattle.ce_solo.proofs.Counting.{count};
    ghost use Rattle.rk_node.specs.Standing.{node_model};
    ghost use Rattle.rk_node.specs.Ready.{HasBlocksOnce, HasRoom};
    ghost use Rattle.rk_node.specs.Moves.{with_status, released_node, IsNewNode};

    /// A node of this home, with its own blocks in its store and no process started.
    pub fn new(alloc: Global, home: u32, room: u32) -> Result<Node, NoMemory>
        requires { home_blocks ≤ room }
        ensures { IfOk result (λ node. IsNewNode home room node) }
    {
        Ok(Node {
            home,
            room,
            number: 0,
            dim: 0,
            images: 0,
            processes: unborn_processes(alloc)?,
            held_blocks: HeldBlocks::new(alloc, room)?,
            store: Store::of_home(alloc, home, room)?,
            polling_ids: VecDeque::with_capacity(alloc, PROCESS_COUNT as usize)?,
            turn: None,
            batch: Some(Batch::new(alloc)?),
        })
    }

    /// An argument of a process's call: of 0 to 7, in a0 to a7.
    pub fn argument(&self, pid: Pid, index: u32) -> u32
        requires { index ≤ NUMBER_ARGUMENT }
        ensures { result ≡ argument (process_at (node_model self.now) pid.number) index }
    {
        let register = Register {
            number: A0 + index as u8,
        };
        self.processes[pid.number as usize].register(register)
    }

    /// What a process does at this moment.
    pub fn status(&self, pid: Pid) -> Status
        ensures { result ≡ (process_at (node_model self.now) pid.number).status }
    {
        self.processes[pid.number as usize].status()
    }

    /// Answers a process's call.
    pub fn answer(&mut self, pid: Pid, value: u32)
        ensures node { node_model self.new ≡ with_process (node_model self.old) pid.number
            (with_answer value (process_at (node_model self.old) pid.number)) }
        ensures batch { self.new.batch ≡ self.old.batch }
        ensures room { self.new.room ≡ self.old.room }
    {
        let process = &mut self.processes[pid.number as usize];
        process.answer(value);
    }

    /// Says what a process does from now on.
    pub fn set_status(&mut self, pid: Pid, status: Status)
        ensures node { node_model self.new ≡ with_process (node_model self.old) pid.number
            (with_status status (process_at (node_model self.old) pid.number)) }
        ensures batch { self.new.batch ≡ self.old.batch }
        ensures room { self.new.room ≡ self.old.room }
    {
        let process = &mut self.processes[pid.number as usize];
        process.set_status(status);
    }

    /// Puts a block into the store.
    pub fn give(&mut self, block: Block)
        requires room { HasRoom self.old }
        requires apart { count block.id (node_model self.old).store ≡ 0 }
        ensures node { node_model self.new
            ≡ with_store (with_id block.id (node_model self.old).store) (node_model self.old) }
        ensures batch { self.new.batch ≡ self.old.batch }
        ensures room { self.new.room ≡ self.old.room }
    {
        self.store.give(block);
    }

    /// Moves all blocks of a process to the store.
    fn release(&mut self, pid: Pid)
        requires { HasBlocksOnce (node_model self.old) }
        ensures node { node_model self.new ≡ released_node pid.number (node_model self.old) }
        ensures batch { self.new.batch ≡ self.old.batch }
        ensures room { self.new.room ≡ self.old.room }
    {
        self.held_blocks.drain(pid.number, &mut self.store);
    }

    /// Takes a process out of the list of those that poll.
    pub fn leave_polling(&mut self, pid: Pid)
        ensures node { node_model self.new ≡ record (node_model self.old) {
          polling_ids = without_poller pid.number self.old.polling_ids.items;
        } }
        ensures batch { self.new.batch ≡ self.old.batch }
        ensures room { self.new.room ≡ self.old.room }
    {
        match place_of(&self.polling_ids, pid.number) {
            Some(place) => {
                let _ = self.polling_ids.remove(place);
            }
            None => {}
        }
    }

    /// Stops a process: its blocks go to the store, it polls no longer, and the turn is over.
    pub fn stop(&mut self, pid: Pid, cause: Stop)
        requires { HasBlocksOnce (node_model self.old) }
        ensures node { node_model self.new ≡ with_stopped_process (node_model self.old) pid.number
            (process_at (node_model self.old) pid.number) cause }
        ensures batch { self.new.batch ≡ self.old.batch }
        ensures room { self.new.room ≡ self.old.room }
    {
        self.release(pid);
        self.set_status(pid, Status::Stopped(cause));
        self.leave_polling(pid);
        self.turn = None;
    }
}

/// Where this id stands first in the list of those that poll.
fn place_of(polling: &VecDeque<u32>, pid: u32) -> Option<usize>
    ensures { result ≡ position (λ other. other == pid) polling.now.items }
{
    polling.iter().position(|other| *other == pid)
}

/// A process for each id, none of them started.
#[tactic(auto, unfolding(ce_model::specs::Limits::process_count))]
fn unborn_processes(alloc: Global) -> Result<Vec<Process>, NoMemory>
    ensures { IfOk result (λ processes. processes.items ≡ replicate process_count unborn_state) }
{
    let mut processes = Vec::with_capacity(alloc, PROCESS_COUNT as usize)?;
    for _pid in 0..PROCESS_COUNT {
        processes.push(Process::new(alloc)?)?;
    }
    Ok(processes)
}
