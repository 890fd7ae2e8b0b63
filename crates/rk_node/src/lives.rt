ghost use Rattle.ce_model.specs.Kernel.{spawn, ckill, note};
ghost use Rattle.rk_node.specs.Standing.{turn_model};
ghost use Rattle.rk_node.specs.Ready.{IsInTurn};
ghost use Rattle.rk_node.specs.Wording.{HasDoneCall};

use crate::node::Node;
use crate::turn::{CallEnd, Turn};
use ce_model::calls::{NO_IMAGE, NO_PLACE};
use rk_mail::Say;

impl Node {
    /// spawn: an image is to be started as a process at a place.
    pub fn spawn(&mut self, turn: Turn) -> CallEnd
        requires { IsInTurn self.old (turn_model turn) }
        ensures { HasDoneCall spawn self.old self.new (turn_model turn) (turn_model turn) result }
    {
        let to = self.place_named(turn.pid, 1);
        if !self.is_place(to) {
            return self.return_value(turn, NO_PLACE);
        }
        let image = self.argument(turn.pid, 0);
        if image >= self.images {
            return self.return_value(turn, NO_IMAGE);
        }
        let pid = turn.pid.number;
        self.leave_node(turn, Say::Spawn { pid, image, to })
    }

    /// ckill: the process at a place is to be ended.
    pub fn ckill(&mut self, turn: Turn) -> CallEnd
        requires { IsInTurn self.old (turn_model turn) }
        ensures { HasDoneCall ckill self.old self.new (turn_model turn) (turn_model turn) result }
    {
        let to = self.place_named(turn.pid, 0);
        if !self.is_place(to) {
            return self.return_value(turn, NO_PLACE);
        }
        let pid = turn.pid.number;
        self.leave_node(turn, Say::Kill { pid, to })
    }

    /// note: the word goes into the trace.
    pub fn note(&mut self, turn: Turn) -> CallEnd
        requires { IsInTurn self.old (turn_model turn) }
        ensures { HasDoneCall note self.old self.new (turn_model turn) (turn_model turn) result }
    {
        let word = self.argument(turn.pid, 0);
        let pid = turn.pid.number;
        self.leave_node(turn, Say::Note { pid, word })
    }
}
