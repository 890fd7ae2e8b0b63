//! The lines of a cube's trace.
ghost use Rattle.std.specs.Prelude.{◌≡◌, [], ◌∷◌, ◌++◌, OnOk, None, codes, decimal, map, ◌==◌, if◌then◌else◌};
ghost use Rattle.ce_text.specs.Bytes.{space};
ghost use Rattle.ce_model.specs.Renaming.{block_inward, entry_inward, place_inward, renamed_targets, renamed_what};
ghost use Rattle.ce_script.specs.TextParts.{bytes_text, image_name, place_text, joined_words};
ghost use Rattle.ce_script.specs.EntryText.{actor_words, entry_line, found_text, given_words, kill_result_text, number_text, target_text, targets_text, what_words};
ghost use Rattle.ce_trace.specs.Spaced.{spaced_words};

use crate::digits::{push_data, push_number, push_some_number, push_with_number};
use crate::inward::{block_inward, place_inward};
use crate::names::image_name;
use crate::places::{push_block, push_place};
use crate::words::{push, push_line_feed, push_word};
use ce_model::{
    BlockId, Bytes, Entry, HOST, KillResult, LookResult, Place, Subcube, TakeResult, What,
};
use ce_script::Script;
use ce_set::relative_number;
use std::alloc::AllocError;

/// The line of an entry of the machine in the trace of a cube: the cube's numbers stand in it.
pub(crate) fn push_entry(
    text: &mut Vec<u8>,
    script: &Script,
    sub: Subcube,
    entry: &Entry,
) -> Result<(), AllocError>
    ensures { OnOk result (text.new.items
        ≡ text.old.items ++ entry_line script.now (entry_inward sub entry.now)) }
{
    push_actor(text, relative_number(&sub, entry.actor))?;
    push_what(text, script, sub, &entry.what)?;
    push_line_feed(text)
}

/// Who made the entry.
fn push_actor(text: &mut Vec<u8>, actor: u32) -> Result<(), AllocError>
    ensures { OnOk result (text.new.items ≡ text.old.items ++ joined_words (actor_words actor)) }
{
    if actor == HOST {
        return push(text, b"host");
    }
    push(text, b"node")?;
    push_number(text, u64::from(actor))
}

/// What was done, with a space before each word; nothing for what stands in no trace.
fn push_what(
    text: &mut Vec<u8>,
    script: &Script,
    sub: Subcube,
    what: &What,
) -> Result<(), AllocError>
    ensures { OnOk result (text.new.items ≡ text.old.items ++ spaced_words (what_words script.now
        (renamed_what (place_inward sub) (block_inward sub) what.now))) }
{
    match what {
        What::Getcube { .. } | What::Peek | What::Drain | What::Freecube => Ok(()),
        What::Arm { count } => push_with_number(text, b" arm", *count),
        What::Look { found } => push_look(text, *found),
        What::HostTake { number } => push_get(text, *number),
        What::Send {
            pid,
            first,
            to,
            bytes,
        } => push_send(text, sub, *pid, *first, to.as_slice(), bytes.as_slice()),
        What::Spawn {
            pid,
            image,
            to,
            fresh,
        } => push_spawn(text, script, *pid, *image, place_inward(sub, *to), *fresh),
        What::Kill { pid, to, found } => push_kill(text, *pid, place_inward(sub, *to), *found),
        What::Note { pid, word } => push_note(text, *pid, *word),
        What::Take {
            asking,
            dead,
            poller,
            given,
        } => push_take(text, script, *asking, *dead, *poller, *given),
    }
}

/// A place as a word, with a space before it.
fn push_place_word(text: &mut Vec<u8>, place: Place) -> Result<(), AllocError>
    ensures { OnOk result (text.new.items ≡ text.old.items ++ (space ∷ place_text place)) }
{
    push(text, b" ")?;
    push_place(text, place)
}

/// What a look found.
fn push_look(text: &mut Vec<u8>, found: LookResult) -> Result<(), AllocError>
    ensures { OnOk result (text.new.items
        ≡ text.old.items ++ spaced_words (codes "look" ∷ found_text found ∷ [])) }
{
    match found {
        LookResult::Quiet => push(text, b" look quiet"),
        LookResult::Spent => push(text, b" look spent"),
        LookResult::Busy => push(text, b" look busy"),
    }
}

/// What the host took.
fn push_get(text: &mut Vec<u8>, number: Option<u64>) -> Result<(), AllocError>
    ensures { OnOk result (text.new.items
        ≡ text.old.items ++ spaced_words (codes "get" ∷ number_text number ∷ [])) }
{
    push(text, b" get")?;
    push_some_number(text, number)
}

/// What a process sent.
fn push_send(
    text: &mut Vec<u8>,
    sub: Subcube,
    pid: u32,
    first: u64,
    to: &[(Place, BlockId)],
    bytes: &[u8],
) -> Result<(), AllocError>
    ensures { OnOk result (text.new.items
        ≡ text.old.items ++ spaced_words (codes "send" ∷ decimal pid ∷ decimal first
        ∷ targets_text (renamed_targets (place_inward sub) (block_inward sub) to.now)
        ∷ bytes_text bytes.now ∷ [])) }
{
    push_with_number(text, b" send", pid)?;
    push_number(text, first)?;
    push_targets(text, sub, to)?;
    push_data(text, bytes)
}

/// What a process had started.
fn push_spawn(
    text: &mut Vec<u8>,
    script: &Script,
    pid: u32,
    image: u32,
    to: Place,
    fresh: bool,
) -> Result<(), AllocError>
    ensures { OnOk result (text.new.items
        ≡ text.old.items ++ spaced_words (codes "spawn" ∷ decimal pid ∷ image_name script.now image
        ∷ place_text to ∷ (if fresh then codes "ok" else codes "used") ∷ [])) }
{
    push_with_number(text, b" spawn", pid)?;
    push_word(text, image_name(script, image))?;
    push_place_word(text, to)?;
    push_freshness(text, fresh)
}

/// What a process asked to end.
fn push_kill(text: &mut Vec<u8>, pid: u32, to: Place, found: KillResult) -> Result<(), AllocError>
    ensures { OnOk result (text.new.items
        ≡ text.old.items ++ spaced_words (codes "kill" ∷ decimal pid ∷ place_text to
        ∷ kill_result_text found ∷ [])) }
{
    push_with_number(text, b" kill", pid)?;
    push_place_word(text, to)?;
    push_kill_result(text, found)
}

/// What a process left in the trace.
fn push_note(text: &mut Vec<u8>, pid: u32, word: u32) -> Result<(), AllocError>
    ensures { OnOk result (text.new.items
        ≡ text.old.items ++ spaced_words (codes "note" ∷ decimal pid ∷ decimal word ∷ [])) }
{
    push_with_number(text, b" note", pid)?;
    push_number(text, u64::from(word))
}

/// What a node asked with, and what it is given.
fn push_take(
    text: &mut Vec<u8>,
    script: &Script,
    asking: u32,
    dead: u32,
    poller: Option<u32>,
    given: TakeResult,
) -> Result<(), AllocError>
    ensures { OnOk result (text.new.items
        ≡ text.old.items ++ spaced_words (codes "take" ∷ decimal asking ∷ decimal dead
        ∷ number_text poller ∷ given_words script.now given)) }
{
    push_with_number(text, b" take", asking)?;
    push_number(text, u64::from(dead))?;
    push_some_number(text, poller.map(u64::from))?;
    push_take_result(text, script, given)
}

/// Whether a process was started, with a space before the word.
fn push_freshness(text: &mut Vec<u8>, fresh: bool) -> Result<(), AllocError>
    ensures { OnOk result (text.new.items
        ≡ text.old.items ++ (space ∷ (if fresh then codes "ok" else codes "used"))) }
{
    match fresh {
        true => push(text, b" ok"),
        false => push(text, b" used"),
    }
}

/// What a kill found, with a space before the word.
fn push_kill_result(text: &mut Vec<u8>, found: KillResult) -> Result<(), AllocError>
    ensures { OnOk result (text.new.items ≡ text.old.items ++ (space ∷ kill_result_text found)) }
{
    match found {
        KillResult::Killed => push(text, b" ok"),
        KillResult::Unused => push(text, b" unused"),
        KillResult::Already => push(text, b" already"),
    }
}

/// The places that a message goes to, each with the block that carries it there; with a space
/// before them.
fn push_targets(text: &mut Vec<u8>, sub: Subcube, to: &[(Place, BlockId)]) -> Result<(), AllocError>
    ensures { OnOk result (text.new.items ≡ text.old.items ++ (space
        ∷ targets_text (renamed_targets (place_inward sub) (block_inward sub) to.now))) }
{
    push(text, b" ")?;
    let Some((first, others)) = to.split_first() else {
        return Ok(());
    };
    push_target(text, sub, first)?;
    for target in others {
        push(text, b",")?;
        push_target(text, sub, target)?;
    }
    Ok(())
}

/// A place with the block that carries the message there.
fn push_target(
    text: &mut Vec<u8>,
    sub: Subcube,
    target: &(Place, BlockId),
) -> Result<(), AllocError>
    ensures { OnOk result (text.new.items ≡ text.old.items
        ++ target_text (place_inward sub target.now.0, block_inward sub target.now.1)) }
{
    push_place(text, place_inward(sub, target.0))?;
    push(text, b"=")?;
    push_block(text, block_inward(sub, target.1))
}

/// What a node is given, with a space before each word.
fn push_take_result(
    text: &mut Vec<u8>,
    script: &Script,
    given: TakeResult,
) -> Result<(), AllocError>
    ensures { OnOk result (text.new.items
        ≡ text.old.items ++ spaced_words (given_words script.now given)) }
{
    match given {
        TakeResult::Start { pid, image } => {
            push_with_number(text, b" start", pid)?;
            push_word(text, image_name(script, image))
        }
        TakeResult::Mail { pid, number } => {
            push_with_number(text, b" mail", pid)?;
            push_number(text, number)
        }
        TakeResult::Kill { pid } => push_with_number(text, b" kill", pid),
        TakeResult::Poll { pid } => push_with_number(text, b" poll", pid),
        TakeResult::Idle => push(text, b" idle"),
        TakeResult::Spent => push(text, b" spent"),
    }
}
