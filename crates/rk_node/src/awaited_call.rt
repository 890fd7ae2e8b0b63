//! Which call of a node waits for its answer.
/// Which call of a node is out: said, and not answered yet. A Take doesn't count, since it may be
/// said again.
#[derive(Clone, Copy, Debug, PartialEq, Eq)]
pub enum AwaitedCall {
    /// None but a Take.
    Nothing,
    /// A message.
    Send,
    /// The start of a process.
    Spawn,
    /// The end of a process.
    Kill,
    /// A word for the trace.
    Note,
}

ghost use Rattle.std.specs.Prelude.{◌≡◌};
ghost use Rattle.rk_mail.specs.Talk.{call_of_say};
ghost use Rattle.rk_node.specs.Wording.{awaited_call_of};

use rk_mail::Say;

/// Which call is awaited once this was said.
pub(crate) fn awaited_call_after(say: &Say) -> AwaitedCall
    ensures { result ≡ awaited_call_of (call_of_say say.now) }
{
    match say {
        Say::Take { .. } => AwaitedCall::Nothing,
        Say::Send { .. } => AwaitedCall::Send,
        Say::Spawn { .. } => AwaitedCall::Spawn,
        Say::Kill { .. } => AwaitedCall::Kill,
        Say::Note { .. } => AwaitedCall::Note,
    }
}
