ghost use Rattle.std.specs.Prelude.{◌<◌, ◌≡◌, ◌+◌, ◌^◌, ◌≤◌, ◌++◌, length, take, drop, zip, IsSome, Some, None, []};
ghost use Rattle.std.specs.List.{list_all};
ghost use Rattle.rv_model.specs.declared.limits.TheConstants.{WORD_SIZE};
ghost use Rattle.ce_model.specs.declared.calls.TheConstants.{NUMBER_ARGUMENT};
ghost use Rattle.ce_model.specs.Limits.{greatest_targets};
ghost use Rattle.ce_model.specs.Space.{result_map, load_result, memory_place, places_at};
ghost use Rattle.ce_model.specs.Node.{process_at, is_place};
ghost use Rattle.ce_model.specs.Kernel.{with_store, is_target, place_named, send_outcome, copies_outcome, xmsend_block, xrecv, xrecvb};
ghost use Rattle.xm_owner.specs.Holdings.{block_held_at};
ghost use Rattle.rk_mail.specs.Targets.{bytes_of, targets_of};
ghost use Rattle.rk_node.specs.Standing.{node_model, turn_model};
ghost use Rattle.rk_node.specs.Ready.{IsInTurn};
ghost use Rattle.rk_node.specs.Wording.{HasDoneCall};
ghost use Rattle.rk_node.specs.BlockCalls.{HasDoneBlockCall};

use crate::node::Node;
use crate::pid::Pid;
use crate::turn::{CallEnd, Turn};
use ce_model::calls::{NO_PLACE, TOO_FEW_BLOCKS, TOO_MANY_PLACES};
use ce_model::{GREATEST_TARGETS, HOST, PROCESS_COUNT, Place, Status, Stop};
use rk_mail::{Batch, Say};
use rv_model::WORD_SIZE;

impl Node {
    /// A place where a process can be: a node of the cube, and a process id.
    #[tactic(auto, unfolding(ce_model::specs::Limits::process_count))]
    pub fn is_place(&self, to: Place) -> bool
        ensures { result ≡ is_place self.now.dim to }
    {
        to.node < self.nodes() && to.pid < PROCESS_COUNT
    }

    /// How many nodes the cube has.
    #[tactic(auto, using(ce_model::specs::Limits::greatest_dim_lem))]
    pub fn nodes(&self) -> u32
        ensures { result ≡ 2 ^ self.now.dim }
    {
        1 << self.dim
    }

    /// A message can be sent to a place of the cube, and to its host.
    pub fn is_target(&self, to: Place) -> bool
        ensures { result ≡ is_target (node_model self.now) to }
    {
        self.is_place(to) || (to.node == HOST && to.pid == 0)
    }

    /// The place that two arguments of a process's call name.
    pub fn place_named(&self, pid: Pid, index: u32) -> Place
        requires { index < NUMBER_ARGUMENT }
        ensures { result ≡ place_named (process_at (node_model self.now) pid.number) index }
    {
        Place {
            node: self.argument(pid, index),
            pid: self.argument(pid, index + 1),
        }
    }

    /// The call of the turn's process leaves the node.
    pub fn leave_node(&mut self, turn: Turn, say: Say) -> CallEnd
        ensures result { result ≡ CallEnd.Departure say }
        ensures after { self.new ≡ record self.old { turn = Some turn } }
    {
        self.turn = Some(turn);
        CallEnd::Departure(say)
    }

    /// Takes the spare batch.
    fn take_batch(&mut self) -> Batch
        requires { self.old.batch ≡ Some [] }
        ensures batch { result ≡ [] }
        ensures after { self.new ≡ record self.old { batch = None } }
    {
        match self.batch.take() {
            Some(batch) => batch,
            None => unreachable!(),
        }
    }

    /// xsend of the block at a window: it leaves the process for the place that the call names, if
    /// it is one.
    pub fn send_block(&mut self, turn: Turn, window: u32) -> CallEnd
        requires ready { IsInTurn self.old (turn_model turn) }
        requires held { IsSome
            (block_held_at self.old.held_blocks.mappings turn.pid.number window) }
        ensures { HasDoneBlockCall window send_outcome self.old self.new (turn_model turn) result }
    {
        let to = self.place_named(turn.pid, 1);
        if !self.is_target(to) {
            return self.return_value(turn, NO_PLACE);
        }
        let block = self.take_out(turn.pid, window);
        let mut batch = self.take_batch();
        batch.add_first(to, block);
        let pid = turn.pid.number;
        self.leave_node(turn, Say::Send { pid, batch })
    }

    /// xmsend of the block at a window: the whole list of places is read, and the block is sent to
    /// them.
    pub fn xmsend_block(&mut self, turn: Turn, window: u32) -> CallEnd
        requires ready { IsInTurn self.old (turn_model turn) }
        requires held { IsSome
            (block_held_at self.old.held_blocks.mappings turn.pid.number window) }
        ensures { HasDoneBlockCall window xmsend_block self.old self.new (turn_model turn) result }
    {
        let count = self.argument(turn.pid, 1);
        if count > GREATEST_TARGETS {
            return self.return_value(turn, TOO_MANY_PLACES);
        }
        let mut all = [Place { node: 0, pid: 0 }; GREATEST_TARGETS as usize];
        let places = &mut all[..count as usize];
        match self.read_places(turn.pid, self.argument(turn.pid, 2), places) {
            Ok(()) => self.send_copies(turn, window, places),
            Err(cause) => self.stop_turn(turn, cause),
        }
    }

    /// Reads places, one behind the other from an address on, or why a word of theirs can't be
    /// read.
    fn read_places(&self, pid: Pid, address: u32, places: &mut [Place]) -> Result<(), Stop>
        ensures { places_at (process_at (node_model self.now) pid.number).space address
            (length places.old) ≡ result_map (λ _. places.new) result }
    {
        let mut place_address = address;
        for place in places.iter_mut() {
            match self.place_at(pid, place_address) {
                Ok(found) => *place = found,
                Err(cause) => return Err(cause),
            }
            place_address = place_address.wrapping_add(2 * WORD_SIZE);
        }
        Ok(())
    }

    /// The place at an address: a word for the node, and behind it one for the process id.
    fn place_at(&self, pid: Pid, address: u32) -> Result<Place, Stop>
        ensures { result
            ≡ memory_place (process_at (node_model self.now) pid.number).space address }
    {
        match self.word_at(pid, address) {
            Ok(node) => match self.word_at(pid, address.wrapping_add(WORD_SIZE)) {
                Ok(process_id) => Ok(Place {
                    node,
                    pid: process_id,
                }),
                Err(cause) => Err(cause),
            },
            Err(cause) => Err(cause),
        }
    }

    /// The word at an address of a process.
    fn word_at(&self, pid: Pid, address: u32) -> Result<u32, Stop>
        ensures { result
            ≡ load_result (process_at (node_model self.now) pid.number).space address WORD_SIZE }
    {
        let process = &self.processes[pid.number as usize];
        process.load_word(pid.number, &self.held_blocks, address)
    }

    /// Sends the block at a window to these places: the first gets the block, each further one a
    /// copy in the store's least block.
    fn send_copies(&mut self, turn: Turn, window: u32, places: &[Place]) -> CallEnd
        requires ready { IsInTurn self.old (turn_model turn) }
        requires held { IsSome
            (block_held_at self.old.held_blocks.mappings turn.pid.number window) }
        requires few { length places.now ≤ greatest_targets }
        ensures { HasDoneBlockCall window
            (λ node turn p found. copies_outcome node turn p found places.now)
            self.old self.new (turn_model turn) result }
    {
        let Some((first, others)) = places.split_first() else {
            return self.free_block(turn, window);
        };
        if !self.are_targets(places) {
            return self.return_value(turn, NO_PLACE);
        }
        if (self.store.count() as usize) < others.len() {
            return self.return_value(turn, TOO_FEW_BLOCKS);
        }
        let block = self.take_out(turn.pid, window);
        let mut batch = self.take_batch();
        batch.add_first(*first, block);
        self.add_copies(&mut batch, others);
        let pid = turn.pid.number;
        self.leave_node(turn, Say::Send { pid, batch })
    }

    /// A message can be sent to each of these places.
    fn are_targets(&self, places: &[Place]) -> bool
        ensures { result ≡ list_all (is_target (node_model self.now)) places.now }
    {
        places.iter().all(|to| self.is_target(*to))
    }

    /// Adds a copy of the message for each of these places, in the store's least blocks; the store
    /// has enough.
    fn add_copies(&mut self, batch: &mut Batch, places: &[Place])
        requires some { 1 ≤ length batch.old }
        requires few { length batch.old + length places.now ≤ greatest_targets }
        requires enough { length places.now ≤ length self.old.store.blocks }
        ensures node { node_model self.new
            ≡ with_store (drop (length places.now) (node_model self.old).store)
            (node_model self.old) }
        ensures targets { targets_of batch.new ≡ targets_of batch.old
            ++ zip places.now (take (length places.now) (node_model self.old).store) }
        ensures bytes { bytes_of batch.new ≡ bytes_of batch.old }
        ensures batch { self.new.batch ≡ self.old.batch }
        ensures room { self.new.room ≡ self.old.room }
    {
        for to in places {
            match self.store.take_least() {
                Some(block) => batch.add(*to, block),
                None => unreachable!(),
            }
        }
    }

    /// xrecv: the process polls, behind those that poll already, and its turn is over.
    pub fn xrecv(&mut self, turn: Turn) -> CallEnd
        requires { IsInTurn self.old (turn_model turn) }
        ensures { HasDoneCall xrecv self.old self.new (turn_model turn) (turn_model turn) result }
    {
        self.set_status(turn.pid, Status::Polling);
        self.polling_ids.push_back_reserved(turn.pid.number);
        self.turn = None;
        CallEnd::TurnConclusion
    }

    /// xrecvb: the process waits for a message, and its turn is over.
    pub fn xrecvb(&mut self, turn: Turn) -> CallEnd
        requires { IsInTurn self.old (turn_model turn) }
        ensures { HasDoneCall xrecvb self.old self.new (turn_model turn) (turn_model turn) result }
    {
        self.set_status(turn.pid, Status::Asking);
        self.turn = None;
        CallEnd::TurnConclusion
    }
}
