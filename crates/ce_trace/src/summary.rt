//! The summary of a load.
ghost use Rattle.std.specs.Prelude.{◌≡◌, [], ◌∷◌, ◌++◌, IfOk, OnOk, find};
ghost use Rattle.std.specs.Option.{option_copied};
ghost use Rattle.ce_script.specs.TextParts.{line};
ghost use Rattle.ce_script.specs.Texts.{is_recv, received_text, summary};

use crate::digits::push_number;
use crate::replies::push_reply;
use crate::words::{push, push_line_feed};
use ce_host::{Answer, Command};
use ce_model::NoMemory;
use ce_script::{Record, UserRecord};
use std::alloc::{AllocError, Global};

/// The summary of the load of a seed: each user, and what its first `recv` was answered; a user
/// without one has an empty answer. `NoMemory` may come at any time.
#[tactic(auto, unfolding(ce_script::specs::Texts::summary))]
pub fn write_summary(alloc: Global, seed: u32, run_record: &Record) -> Result<Vec<u8>, NoMemory>
    ensures { IfOk result (λ text. text.items ≡ summary seed run_record.now) }
{
    let mut text = Vec::new(alloc);
    push(&mut text, b"load")?;
    push_number(&mut text, u64::from(seed))?;
    push_line_feed(&mut text)?;
    for user in run_record.users.as_slice() {
        push_recv_answer(&mut text, run_record, user)?;
    }
    Ok(text)
}

/// A user, and what its `recv` was answered.
fn push_recv_answer(
    text: &mut Vec<u8>,
    run_record: &Record,
    user: &UserRecord,
) -> Result<(), AllocError>
    ensures { OnOk result (text.new.items
        ≡ text.old.items ++ line (user.now.name ∷ received_text run_record.now user.now ∷ [])) }
{
    push(text, user.name.as_str().as_bytes())?;
    push(text, b" ")?;
    push_answer(text, run_record, user)?;
    push_line_feed(text)
}

/// What the `recv` of a user was answered.
fn push_answer(text: &mut Vec<u8>, run_record: &Record, user: &UserRecord) -> Result<(), AllocError>
    ensures { OnOk result (text.new.items
        ≡ text.old.items ++ received_text run_record.now user.now) }
{
    match first_recv(user.done.as_slice()) {
        Some(doing) => push_reply(text, run_record, &doing.1),
        None => Ok(()),
    }
}

/// The first `recv`, with its answer.
fn first_recv(doings: &[(Command, Answer)]) -> Option<&(Command, Answer)>
    ensures { option_copied result ≡ find (λ each. is_recv each.0) doings.now }
{
    doings.iter().find(|each| is_recv(&each.0))
}

fn is_recv(command: &Command) -> bool
    ensures { result ≡ is_recv command.now }
{
    matches!(command, Command::Recv(_))
}
