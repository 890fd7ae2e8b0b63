//! One call of a node's box and its answer.
ghost use Rattle.std.specs.Prelude.{◌≡◌, MatchResult};
ghost use Rattle.rk_mail.specs.Talk.{call_of_say};
ghost use Rattle.rk_node.specs.Boxes.{Box};
ghost use Rattle.ce_machine.specs.declared.call.Reply.TheVariants as replies;
ghost use Rattle.rk_mail.specs.declared.talk.Hearing.{Hearing};
ghost use Rattle.ce_cube.specs.Exchanges.{HasSaidCall, HasExchanged, HasNode};
ghost use Rattle.ce_cube.specs.Rounds.{is_work_hearing};

use ce_daemon::Grant;
use ce_lock::{Kept, Who};
use ce_machine::{Call, Machine, Reply};
use ce_model::NoMemory;
use ce_set::node_of;
use rk_mail::{Hearing, Say};
use rk_node::NodeBox;
use rv_image::Image;
use std::alloc::Global;

/// Has the machine answer what the box of node r of the cube has said, and the box hear it. Whether
/// that gives the node work. With `NoMemory` the machine is unchanged.
pub(crate) fn exchange(
    alloc: Global,
    machine: &mut Machine<NodeBox>,
    grant: &Grant,
    r: u32,
    node_box: &mut NodeBox,
    images: &[Image],
    say: Say,
) -> Result<bool, NoMemory>
    requires node { HasNode machine.old grant.now r }
    requires said { (box : Box)
        × HasSaidCall machine.old grant.now r box node_box.old (call_of_say say) }
    requires images { images.now ≡ machine.old.parts.images }
    ensures { MatchResult result
        (λ gives_work. (box : Box)
        → HasSaidCall machine.old grant.now r box node_box.old (call_of_say say)
        → HasExchanged machine.old machine.new grant.now r box node_box.new (call_of_say say)
        gives_work)
        (λ _. machine.new ≡ machine.old) }
{
    let who = Who {
        family: grant.user,
        actor: node_of(&grant.sub, r),
    };
    let reply = match machine.act(alloc, who, Call::Say(say)) {
        Ok(reply) => reply,
        Err((_, want)) => return Err(want),
    };
    let hearing = hearing_of_reply(reply);
    let gives_work = is_work(&hearing);
    node_box.hears(images, hearing);
    Ok(gives_work)
}

/// What a machine's reply lets a node hear; it lets it hear something.
fn hearing_of_reply(reply: Reply<NodeBox>) -> Hearing
    requires { (hearing : Hearing) × (reply ≡ replies.Heard hearing) }
    ensures { reply ≡ replies.Heard result }
{
    match reply {
        Reply::Heard(hearing) => hearing,
        _ => unreachable!(),
    }
}

/// Whether a node is given work by this answer.
fn is_work(hearing: &Hearing) -> bool
    ensures { result ≡ is_work_hearing hearing.now }
{
    matches!(
        hearing,
        Hearing::Start { .. } | Hearing::Mail(_) | Hearing::Kill { .. } | Hearing::Poll { .. }
    )
}
