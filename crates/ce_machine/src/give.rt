ghost use Rattle.std.specs.Prelude.{◌≡◌, IsTrue, find};
ghost use Rattle.rk_mail.specs.Talk.{is_take_hearing};
ghost use Rattle.ce_model.specs.Parcels.{is_eligible};
ghost use Rattle.ce_model.specs.Trace.{is_work, is_idle};
ghost use Rattle.ce_model.specs.Answers.{offer_of};
ghost use Rattle.ce_machine.specs.Gives.{hearing_item, result_of_hearing, chosen_item, items_left};

use crate::desk::Desk;
use ce_model::TakeResult;
use rk_mail::{Hearing, Item};

// Gives a node that asks for work the first item that it can be given, or else tells the process
// that polls longest that no message is there. Nothing is given where the allowed dispatches are
// used up.
#[tactic(auto, using(crate::proofs::Gives::spent_polling, crate::proofs::Gives::spent_waiting, crate::proofs::Gives::idle_used))]
pub(crate) fn offer(
    desk: &mut Desk,
    asking: u32,
    dead: u32,
    poller: Option<u32>,
    is_used_up: bool,
) -> Hearing
    ensures given { result_of_hearing result
        ≡ offer_of (find (is_eligible asking dead) desk.old.waiting_items) poller is_used_up }
    ensures item { hearing_item result ≡ chosen_item is_used_up asking dead desk.old.waiting_items }
    ensures kind { IsTrue (is_take_hearing result) }
    ensures desk { desk.new
        ≡ record desk.old {
          waiting_items = items_left is_used_up asking dead desk.old.waiting_items;
        } }
{
    if is_used_up {
        return match poller {
            Some(_) => Hearing::Spent,
            None if desk.has_eligible(asking, dead) => Hearing::Spent,
            None => Hearing::Idle,
        };
    }
    match desk.take_next(asking, dead) {
        Some(Item::Start { pid, image }) => Hearing::Start { pid, image },
        Some(Item::Mail(parcel)) => Hearing::Mail(parcel),
        Some(Item::Kill { pid }) => Hearing::Kill { pid },
        None => match poller {
            Some(pid) => Hearing::Poll { pid },
            None => Hearing::Idle,
        },
    }
}

// How an entry names what a node hears that asked for work.
pub(crate) fn result_of_hearing(hearing: &Hearing) -> TakeResult
    ensures { result ≡ result_of_hearing hearing.now }
{
    match hearing {
        Hearing::Start { pid, image } => TakeResult::Start {
            pid: *pid,
            image: *image,
        },
        Hearing::Mail(parcel) => TakeResult::Mail {
            pid: parcel.to.pid,
            number: parcel.number,
        },
        Hearing::Kill { pid } => TakeResult::Kill { pid: *pid },
        Hearing::Poll { pid } => TakeResult::Poll { pid: *pid },
        Hearing::Spent => TakeResult::Spent,
        Hearing::Idle
        | Hearing::Posted(_)
        | Hearing::Spawned
        | Hearing::Used
        | Hearing::Killed
        | Hearing::Unused
        | Hearing::Already
        | Hearing::Noted => TakeResult::Idle,
    }
}

// Whether the node is given work: an item, or leave to go on.
pub(crate) fn is_work(given: TakeResult) -> bool
    ensures { result ≡ is_work given }
{
    !matches!(given, TakeResult::Idle | TakeResult::Spent)
}

// Whether the node is told that there is nothing to do.
pub(crate) fn is_idle(given: TakeResult) -> bool
    ensures { result ≡ is_idle given }
{
    matches!(given, TakeResult::Idle)
}
