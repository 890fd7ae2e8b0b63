ghost use Rattle.std.specs.Prelude.{◌≡◌, ℕ, ◌^◌, ◌<◌, ◌≤◌, List, length, Some, []};
ghost use Rattle.ce_model.specs.Limits.{process_count};
ghost use Rattle.ce_model.specs.Process.{turn_end, is_receiving, is_stopped};
ghost use Rattle.ce_model.specs.Node.{process_at, with_process, process_set, take_call_of};
ghost use Rattle.ce_model.specs.Saying.{turn_saying, says};
ghost use Rattle.rk_mail.specs.Talk.{call_of_say};
ghost use Rattle.xm_owner.specs.Holdings.{Mapping};
ghost use Rattle.rk_process.specs.Runs.{turn_end_of};
ghost use Rattle.rk_node.specs.Standing.{node_model, turn_model, later_processes};
ghost use Rattle.rk_node.specs.Ready.{IsInTurn, IsHearing};
ghost use Rattle.rk_node.specs.Wording.{HasBatch, awaited_call_of, awaited_call_of_end, awaited_call_of_say, saying_of_say, saying_of_end, HasTurnGoneOn};

use crate::node::Node;
use crate::turn::{CallEnd, Turn};
use ce_model::Status;
use rk_mail::Say;
use rk_process::{Pause, Process};

impl Node {
    /// Runs the current turn to the next call that leaves the node; where there is none any longer,
    /// the node asks for work.
    pub fn says(&mut self) -> Say
        requires ready { IsHearing self.old }
        requires batch { self.old.batch ≡ Some [] }
        ensures call { call_of_say result ≡ (says (node_model self.old)).call }
        ensures node { node_model self.new ≡ (says (node_model self.old)).node }
        ensures batch { HasBatch (awaited_call_of (call_of_say result)) self.new.batch }
        ensures room { self.new.room ≡ self.old.room }
    {
        match self.turn {
            Some(turn) => self.say_in_turn(turn),
            None => self.work_request(),
        }
    }

    /// Runs the turn to the next call that leaves the node; where it ends before, the node asks for
    /// work.
    fn say_in_turn(&mut self, turn: Turn) -> Say
        requires { IsInTurn self.old (turn_model turn) }
        ensures call { call_of_say result
            ≡ (turn_saying turn.instructions_left (node_model self.old) (turn_model turn)).call }
        ensures node { node_model self.new
            ≡ (turn_saying turn.instructions_left (node_model self.old) (turn_model turn)).node }
        ensures batch { HasBatch (awaited_call_of (call_of_say result)) self.new.batch }
        ensures room { self.new.room ≡ self.old.room }
    {
        match self.run_turn(turn) {
            Some(say) => say,
            None => self.work_request(),
        }
    }

    /// Runs the turn to the next call that leaves the node; None where the turn ends before.
    pub fn run_turn(&mut self, first_turn: Turn) -> Option<Say>
        requires { IsInTurn self.old (turn_model first_turn) }
        ensures said { saying_of_say result (node_model self.new)
            ≡ turn_saying first_turn.instructions_left (node_model self.old)
            (turn_model first_turn) }
        ensures batch { HasBatch (awaited_call_of_say result) self.new.batch }
        ensures room { self.new.room ≡ self.old.room }
    {
        let mut turn = first_turn;
        loop {
            match self.run_on(&mut turn) {
                CallEnd::Continuation => {}
                CallEnd::Departure(say) => return Some(say),
                CallEnd::TurnConclusion => return None,
            }
        }
    }

    /// Runs the process of the turn to its next call of the kernel, and makes the call.
    fn run_on(&mut self, turn: &mut Turn) -> CallEnd
        requires { IsInTurn self.old (turn_model turn.old) }
        ensures said { saying_of_end result (node_model self.new) (turn_model turn.new)
            ≡ turn_saying turn.old.instructions_left (node_model self.old) (turn_model turn.old) }
        ensures batch { HasBatch (awaited_call_of_end result) self.new.batch }
        ensures room { self.new.room ≡ self.old.room }
        ensures goes_on { HasTurnGoneOn result self.new (turn_model turn.new)
            turn.old.instructions_left }
    {
        match self.run_process(turn) {
            Pause::Call => self.kernel(turn),
            Pause::Stopped(cause) => self.stop_turn(*turn, cause),
        }
    }

    /// Runs the process of the turn to its next call of the kernel, or to its stop.
    fn run_process(&mut self, turn: &mut Turn) -> Pause
        requires { IsInTurn self.old (turn_model turn.old) }
        ensures reached { turn_end turn.old.instructions_left
            (process_at (node_model self.old) turn.old.pid.number)
            ≡ turn_end_of result turn.new.instructions_left
            (process_at (node_model self.new) turn.old.pid.number) }
        ensures node { node_model self.new ≡ with_process (node_model self.old) turn.old.pid.number
            (process_at (node_model self.new) turn.old.pid.number) }
        ensures pid { turn.new.pid ≡ turn.old.pid }
        ensures calls { turn.new.calls ≡ turn.old.calls }
        ensures batch { self.new.batch ≡ self.old.batch }
        ensures room { self.new.room ≡ self.old.room }
    {
        let process = &mut self.processes[turn.pid.number as usize];
        process.run_to_call(
            turn.pid.number,
            &mut self.held_blocks,
            &mut turn.instructions_left,
        )
    }

    /// What a node without a turn says: it asks for work.
    #[tactic(auto, using(ce_model::specs::Limits::process_count_lem))]
    pub fn work_request(&self) -> Say
        ensures { call_of_say result ≡ take_call_of (node_model self.now) }
    {
        let (asking, dead) = asking_and_dead(self.processes.as_slice());
        Say::Take {
            asking,
            dead,
            poller: self.polling_ids.front().copied(),
        }
    }
}

/// The ids of the processes that wait for a message, and those of the ones that have stopped, one
/// bit each.
fn asking_and_dead(processes: &[Process]) -> (u32, u32)
    requires { length processes.now ≤ process_count }
    ensures asking { (mappings : List Mapping) (pid : ℕ)
        → result.0 ≡ process_set is_receiving (later_processes mappings pid processes.now) }
    ensures dead { (mappings : List Mapping) (pid : ℕ)
        → result.1 ≡ process_set is_stopped (later_processes mappings pid processes.now) }
    ensures within { (result.0 < 2 ^ length processes.now) × (result.1 < 2 ^ length processes.now) }
{
    let mut asking = 0;
    let mut dead = 0;
    let mut index = processes.len();
    while index > 0 {
        index -= 1;
        let status = processes[index].status();
        asking = 2 * asking + u32::from(is_receiving(status));
        dead = 2 * dead + u32::from(is_stopped(status));
    }
    (asking, dead)
}

/// It waits for a message.
pub(crate) fn is_receiving(status: Status) -> bool
    ensures { result ≡ is_receiving status }
{
    match status {
        Status::Asking | Status::Polling => true,
        Status::Unborn | Status::Running | Status::Stopped(_) => false,
    }
}

pub(crate) fn is_stopped(status: Status) -> bool
    ensures { result ≡ is_stopped status }
{
    match status {
        Status::Stopped(_) => true,
        Status::Unborn | Status::Running | Status::Asking | Status::Polling => false,
    }
}
