//! The report of a script's run.
ghost use Rattle.std.specs.Prelude.{◌≡◌, [], ◌∷◌, ◌++◌, IfOk, OnOk, codes, decimal, flat_map};
ghost use Rattle.ce_script.specs.TextParts.{line};
ghost use Rattle.ce_script.specs.Texts.{doing_text, report, user_text};

use crate::commands::push_command;
use crate::digits::push_number;
use crate::links::links_of;
use crate::replies::push_reply;
use crate::sections::push_sections;
use crate::words::{push, push_line_feed, push_word};
use ce_host::{Answer, Command};
use ce_model::NoMemory;
use ce_script::{Record, Script, UserRecord};
use std::alloc::{AllocError, Global};

/// The report of a script's run: the machine, each user with the commands and replies, each cube
/// that was granted with its trace, and `end`. A script without statements has none. `NoMemory` may
/// come at any time.
#[tactic(auto, using(crate::proofs::Numbers::report_sections), unfolding(ce_script::specs::Texts::report))]
pub fn write_report(
    alloc: Global,
    script: &Script,
    run_record: &Record,
) -> Result<Vec<u8>, NoMemory>
    ensures { IfOk result (λ text. text.items ≡ report script.now run_record.now) }
{
    let mut text = Vec::new(alloc);
    let Some(dim) = script.dim else {
        return Ok(text);
    };
    push_machine(&mut text, dim)?;
    push_users(&mut text, script, run_record)?;
    let history = run_record.history.as_slice();
    let links = links_of(alloc, history)?;
    push_sections(&mut text, script, run_record, history, links.as_slice())?;
    push(&mut text, b"end\n")?;
    Ok(text)
}

/// The machine's line.
fn push_machine(text: &mut Vec<u8>, dim: u32) -> Result<(), AllocError>
    ensures { OnOk result (text.new.items
        ≡ text.old.items ++ line (codes "machine" ∷ decimal dim ∷ [])) }
{
    push(text, b"machine")?;
    push_number(text, u64::from(dim))?;
    push_line_feed(text)
}

/// All users, and what they did.
fn push_users(text: &mut Vec<u8>, script: &Script, run_record: &Record) -> Result<(), AllocError>
    ensures { OnOk result (text.new.items
        ≡ text.old.items ++ flat_map (user_text script.now run_record.now) run_record.now.users) }
{
    for user in run_record.users.as_slice() {
        push_user(text, script, run_record, user)?;
    }
    Ok(())
}

/// A user, and what it did.
fn push_user(
    text: &mut Vec<u8>,
    script: &Script,
    run_record: &Record,
    user: &UserRecord,
) -> Result<(), AllocError>
    ensures { OnOk result (text.new.items
        ≡ text.old.items ++ user_text script.now run_record.now user.now) }
{
    push(text, b"user")?;
    push_word(text, user.name.as_str().as_bytes())?;
    push_line_feed(text)?;
    for doing in user.done.as_slice() {
        push_doing(text, script, run_record, doing)?;
    }
    Ok(())
}

/// A command and its reply, a line each.
fn push_doing(
    text: &mut Vec<u8>,
    script: &Script,
    run_record: &Record,
    doing: &(Command, Answer),
) -> Result<(), AllocError>
    ensures { OnOk result (text.new.items
        ≡ text.old.items ++ doing_text script.now run_record.now doing.now) }
{
    push_command(text, script, &doing.0)?;
    push(text, b"\n= ")?;
    push_reply(text, run_record, &doing.1)?;
    push_line_feed(text)
}
