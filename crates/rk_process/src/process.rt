ghost use Rattle.std.specs.Prelude.{◌≡◌, ◌≤◌, ◌<◌, ◌+◌, [], length, IfOk, IsTrue, slice_index, slice_set, ℕ};
ghost use Rattle.rv_model.specs.declared.limits.TheConstants.{A0, IMAGE_ROOM, WORD_SIZE};
ghost use Rattle.rv_model.specs.Private.{with_loaded_bytes};
ghost use Rattle.ce_model.specs.Limits.{window_count};
ghost use Rattle.ce_model.specs.Process.{started_process, turn_end};
ghost use Rattle.ce_model.specs.Space.{load_result};
ghost use Rattle.xm_owner.specs.Holdings.{MappingTable};
ghost use Rattle.rk_process.specs.Runs.{turn_end_of, process_of_parts};
ghost use Rattle.ce_model.specs.declared.process.Status.{Status};
ghost use Rattle.rk_process.specs.Memories.{memory_space, memory_rest};
ghost use Rattle.rk_process.specs.OwnStates.{owned_process, space_of, rest_of, unborn_state};

use crate::Pause;
use crate::memory::{ProcessMemory, Windows, load_at};
use ce_model::{NoMemory, Status};
use rv_image::Image;
use rv_model::{AccessSize, PRIVATE_END, Register, Stop};
use rv_step::{Event, PrivateMemory, Registers, step};
use std::alloc::Global;
use std::marker::Model;
use std::mem;
use xm_owner::HeldBlocks;

/// A process of a node: its state, its registers, its private memory, and how many windows it has
/// used. The blocks in its windows are in the map of its node.
#[derive(Drop)]
pub struct Process {
    status: Status,
    registers: Registers,
    pc: u32,
    memory: ProcessMemory,
    /// Whether private memory is known to hold zeros alone, so that nothing need be wiped.
    is_blank: bool,
}

impl Model for Process {
    ghost use Rattle.std.specs.Prelude.{◌≡◌, IsTrue, []};
    ghost use Rattle.rv_model.specs.Private.{with_loaded_bytes};
    ghost use Rattle.rk_process.specs.OwnStates.{OwnState};

    ghost Value = { OwnState };

    ghost view = { λ p. record {
      status = p.status;
      registers = p.registers.x;
      pc = p.pc;
      private = p.memory.private;
      used_count = p.memory.windows.used_count;
    } };

    ghost invariant = { λ p. IsTrue p.is_blank → p.memory.private ≡ with_loaded_bytes [] };
}

impl Process {
    /// A process that wasn't started yet. `NoMemory` may come at any time.
    pub fn new(alloc: Global) -> Result<Process, NoMemory>
        ensures { IfOk result (λ p. p ≡ unborn_state) }
    {
        Ok(Process {
            status: Status::Unborn,
            registers: Registers::new(),
            pc: 0,
            memory: ProcessMemory {
                private: PrivateMemory::new(alloc)?,
                held_blocks: HeldBlocks::new(alloc, 0)?,
                windows: Windows {
                    pid: 0,
                    used_count: 0,
                },
            },
            is_blank: true,
        })
    }

    /// Starts the process from an image: its bytes at the start of private memory and zeros behind
    /// them, the pc at its entry, the stack pointer at the end of private memory, all other
    /// registers 0, and no window used. It must not have been started yet.
    #[tactic(auto, unfolding(crate::specs::OwnStates::windows_of))]
    pub fn start(&mut self, image: &Image)
        requires { self.old.status ≡ Status.Unborn }
        ensures started { (pid : ℕ) (table : MappingTable) → owned_process self.new pid table
            ≡ started_process image.now }
        ensures running { self.new.status ≡ Status.Running }
        ensures windows { self.new.used_count ≡ 0 }
    {
        load(&mut self.memory.private, self.is_blank, image.loaded());
        self.is_blank = false;
        self.memory.windows.used_count = 0;
        self.registers = Registers::new();
        self.registers.set(Register::sp(), PRIVATE_END);
        self.pc = image.entry();
        self.status = Status::Running;
    }

    /// What the process does at this moment.
    pub fn status(&self) -> Status
        ensures { result ≡ self.now.status }
    {
        self.status
    }

    /// How many windows it has used.
    pub fn windows(&self) -> u32
        ensures { result ≡ self.now.used_count }
    {
        self.memory.windows.used_count
    }

    /// The value of a register.
    pub fn register(&self, register: Register) -> u32
        ensures { result ≡ slice_index self.now.registers register.number }
    {
        self.registers.get(register)
    }

    /// Says what the process does from now on.
    pub fn set_status(&mut self, status: Status)
        ensures { self.new ≡ record self.old { status = status } }
    {
        self.status = status;
    }

    /// Uses the next window, and answers its number; fewer than `WINDOW_COUNT` were used.
    #[tactic(auto, unfolding(ce_model::specs::Limits::window_count))]
    pub fn give_window(&mut self) -> u32
        requires { self.old.used_count < window_count }
        ensures window { result ≡ self.old.used_count }
        ensures after { self.new ≡ record self.old { used_count = self.old.used_count + 1 } }
    {
        let window = self.memory.windows.used_count;
        self.memory.windows.used_count = window + 1;
        window
    }

    /// Answers a kernel call: the value goes to a0.
    pub fn answer(&mut self, value: u32)
        ensures { self.new ≡ record self.old { registers = slice_set self.old.registers A0 value } }
    {
        self.registers.set(Register::a0(), value);
    }

    /// Makes it a process that wasn't started yet. Memory that holds zeros alone isn't written.
    pub fn reset(&mut self)
        ensures { self.new ≡ unborn_state }
    {
        if !self.is_blank {
            self.memory.private.load_image(&[]);
            self.is_blank = true;
        }
        self.memory.windows.used_count = 0;
        self.registers = Registers::new();
        self.pc = 0;
        self.status = Status::Unborn;
    }

    /// The word that a load of size 4 at this address gives, or why it would stop the process;
    /// nothing changes. `pid` is the process's id, and `held_blocks` its node's map.
    pub fn load_word(&self, pid: u32, held_blocks: &HeldBlocks, address: u32) -> Result<u32, Stop>
        ensures { result
            ≡ load_result
            (space_of self.now.private held_blocks.now.mappings pid self.now.used_count) address
            WORD_SIZE }
    {
        let windows = Windows {
            pid,
            used_count: self.memory.windows.used_count,
        };
        load_at(
            &self.memory.private,
            held_blocks,
            &windows,
            address,
            AccessSize::word(),
        )
    }

    /// Runs instructions of the process, taking one from `instructions_left` for each, up to an
    /// ECALL or to its stop. The stop is `TurnSpent` exactly where `instructions_left` is 0 and one
    /// more would run. The process is in its turn; `pid` is its id, and `held_blocks` its node's
    /// map, of which it changes nothing but bytes in its own windows.
    pub fn run_to_call(
        &mut self,
        pid: u32,
        held_blocks: &mut HeldBlocks,
        instructions_left: &mut u32,
    ) -> Pause
        requires { self.old.status ≡ Status.Running }
        ensures reached { turn_end instructions_left.old
            (owned_process self.old pid held_blocks.old)
            ≡ turn_end_of result instructions_left.new
            (owned_process self.new pid held_blocks.new) }
        ensures status { self.new.status ≡ self.old.status }
        ensures rest { rest_of pid self.new.used_count held_blocks.new
            ≡ rest_of pid self.old.used_count held_blocks.old }
    {
        self.is_blank = false;
        self.memory.windows.pid = pid;
        mem::swap(&mut self.memory.held_blocks, held_blocks);
        let pause = run(
            &mut self.registers,
            &mut self.pc,
            &mut self.memory,
            instructions_left,
        );
        mem::swap(&mut self.memory.held_blocks, held_blocks);
        pause
    }
}

/// Makes private memory begin with these bytes, and end in zeros. Where it is blank, no zeros are
/// written.
fn load(private: &mut PrivateMemory, is_blank: bool, loaded: &[u8])
    requires blank { IsTrue is_blank → private.old ≡ with_loaded_bytes [] }
    requires room { length loaded.now ≤ IMAGE_ROOM }
    ensures { private.new ≡ with_loaded_bytes loaded.now }
{
    if is_blank {
        private.load_into_zeros(loaded);
    } else {
        private.load_image(loaded);
    }
}

/// Runs instructions up to an ECALL or a stop. While they run, the pc and what is left are held
/// apart, and they are written back at the end.
fn run(
    registers: &mut Registers,
    pc: &mut u32,
    memory: &mut ProcessMemory,
    instructions_left: &mut u32,
) -> Pause
    ensures reached { (status : Status)
        → turn_end instructions_left.old
        (process_of_parts status registers.old.x pc.old (memory_space memory.old))
        ≡ turn_end_of result instructions_left.new
        (process_of_parts status registers.new.x pc.new (memory_space memory.new)) }
    ensures rest { memory_rest memory.new ≡ memory_rest memory.old }
{
    let mut next_pc = *pc;
    let mut left_count = *instructions_left;
    while left_count > 0 {
        left_count -= 1;
        match step(registers, &mut next_pc, memory) {
            Event::Advance => {}
            Event::Call => {
                *pc = next_pc;
                *instructions_left = left_count;
                return Pause::Call;
            }
            Event::Stopped(cause) => {
                *pc = next_pc;
                *instructions_left = left_count;
                return Pause::Stopped(cause);
            }
        }
    }
    *pc = next_pc;
    *instructions_left = 0;
    Pause::Stopped(Stop::TurnSpent)
}
