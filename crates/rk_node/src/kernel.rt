ghost use Rattle.std.specs.Prelude.{◌≡◌, IsTrue};
ghost use Rattle.ce_model.specs.Kernel.{mynode, mypid, nnodes, exit, kernel_call, is_counted_at, call_outcome, kernel};
ghost use Rattle.rk_node.specs.Standing.{turn_model};
ghost use Rattle.rk_node.specs.Ready.{IsInTurn};
ghost use Rattle.rk_node.specs.Wording.{HasDoneCall};
ghost use Rattle.rk_node.specs.BlockCalls.{block_outcome};

use crate::node::Node;
use crate::turn::{BlockCall, CallEnd, Turn};
use ce_model::calls::{
    CKILL, EXIT, MYNODE, MYPID, NNODES, NOTE, NUMBER_ARGUMENT, SPAWN, XFREE, XLENGTH, XMALLOC,
    XMSEND, XRECV, XRECVB, XSEND,
};
use ce_model::{Stop, TURN_CALLS};

impl Node {
    /// The call that the turn's process has made.
    pub fn kernel(&mut self, turn: &mut Turn) -> CallEnd
        requires { IsInTurn self.old (turn_model turn.old) }
        ensures made { HasDoneCall kernel self.old self.new (turn_model turn.old)
            (turn_model turn.new)
            result }
        ensures left { turn.new.instructions_left ≡ turn.old.instructions_left }
    {
        let number = self.argument(turn.pid, NUMBER_ARGUMENT);
        match number {
            XMALLOC => self.xmalloc(*turn),
            XFREE => self.call_on_block(BlockCall::Free, *turn),
            XLENGTH => self.call_on_block(BlockCall::Length, *turn),
            XSEND | XMSEND | SPAWN | CKILL | NOTE => self.make_counted_call(number, turn),
            XRECV => self.xrecv(*turn),
            XRECVB => self.xrecvb(*turn),
            MYNODE => self.mynode(*turn),
            MYPID => self.mypid(*turn),
            NNODES => self.nnodes(*turn),
            EXIT => self.exit(*turn),
            _ => self.stop_turn(*turn, Stop::NoCall(number)),
        }
    }

    /// A call that counts, whatever it answers: the one past the turn's limit isn't made.
    fn make_counted_call(&mut self, number: u32, turn: &mut Turn) -> CallEnd
        requires ready { IsInTurn self.old (turn_model turn.old) }
        requires counted { IsTrue (is_counted_at number) }
        ensures made { HasDoneCall (call_outcome (kernel_call number))
            self.old self.new (turn_model turn.old) (turn_model turn.new) result }
        ensures left { turn.new.instructions_left ≡ turn.old.instructions_left }
    {
        if turn.calls >= TURN_CALLS {
            return self.stop_turn(*turn, Stop::TurnSpent);
        }
        turn.calls += 1;
        match number {
            XSEND => self.call_on_block(BlockCall::Send, *turn),
            XMSEND => self.call_on_block(BlockCall::SendToSeveral, *turn),
            SPAWN => self.spawn(*turn),
            CKILL => self.ckill(*turn),
            _ => self.note(*turn),
        }
    }

    /// A call that names a block: where it names none, the process stops.
    fn call_on_block(&mut self, call: BlockCall, turn: Turn) -> CallEnd
        requires { IsInTurn self.old (turn_model turn) }
        ensures { HasDoneCall (block_outcome call)
            self.old self.new (turn_model turn) (turn_model turn) result }
    {
        match self.block_named(turn.pid, self.argument(turn.pid, 0)) {
            Ok(window) => match call {
                BlockCall::Free => self.free_block(turn, window),
                BlockCall::Length => self.return_length(turn, window),
                BlockCall::Send => self.send_block(turn, window),
                BlockCall::SendToSeveral => self.xmsend_block(turn, window),
            },
            Err(cause) => self.stop_turn(turn, cause),
        }
    }

    /// mynode: the node's number in its cube.
    fn mynode(&mut self, turn: Turn) -> CallEnd
        requires { IsInTurn self.old (turn_model turn) }
        ensures { HasDoneCall mynode self.old self.new (turn_model turn) (turn_model turn) result }
    {
        self.return_value(turn, self.number)
    }

    /// mypid: the process's id.
    fn mypid(&mut self, turn: Turn) -> CallEnd
        requires { IsInTurn self.old (turn_model turn) }
        ensures { HasDoneCall mypid self.old self.new (turn_model turn) (turn_model turn) result }
    {
        self.return_value(turn, turn.pid.number)
    }

    /// nnodes: how many nodes the cube has.
    fn nnodes(&mut self, turn: Turn) -> CallEnd
        requires { IsInTurn self.old (turn_model turn) }
        ensures { HasDoneCall nnodes self.old self.new (turn_model turn) (turn_model turn) result }
    {
        self.return_value(turn, self.nodes())
    }

    /// exit: the process stops.
    fn exit(&mut self, turn: Turn) -> CallEnd
        requires { IsInTurn self.old (turn_model turn) }
        ensures { HasDoneCall exit self.old self.new (turn_model turn) (turn_model turn) result }
    {
        let code = self.argument(turn.pid, 0);
        self.stop_turn(turn, Stop::Exited(code))
    }
}
