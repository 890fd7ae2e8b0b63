//! The replies to a user's commands.
ghost use Rattle.std.specs.Prelude.{◌≡◌, [], ◌∷◌, ◌++◌, OnOk, codes, decimal, flat_map};
ghost use Rattle.ce_script.specs.TextParts.{bytes_text, place_text, subcube_words, joined_words};
ghost use Rattle.ce_script.specs.CommandText.{grant_text, peeked_text, reply_text};
ghost use Rattle.ce_trace.specs.Spaced.{spaced_words};

use crate::digits::{push_data, push_number};
use crate::names::user_name;
use crate::places::{push_place, push_subcube};
use crate::stops::push_status;
use crate::words::push;
use ce_daemon::{Grant, PeekResult};
use ce_host::Answer;
use ce_model::{Bytes, Place};
use ce_script::Record;
use std::alloc::AllocError;

/// A reply.
pub(crate) fn push_reply(
    text: &mut Vec<u8>,
    run_record: &Record,
    answer: &Answer,
) -> Result<(), AllocError>
    ensures { OnOk result (text.new.items
        ≡ text.old.items ++ reply_text run_record.now answer.now) }
{
    match answer {
        Answer::NoCube => push(text, b"no cube"),
        Answer::Held => push(text, b"held"),
        Answer::None => push(text, b"none"),
        Answer::Granted(sub) => {
            push(text, b"granted")?;
            push_subcube(text, *sub)
        }
        Answer::Peeked(peek_result) => push_peek_result(text, run_record, peek_result),
        Answer::Freed => push(text, b"freed"),
        Answer::Ok => push(text, b"ok"),
        Answer::NoPlace => push(text, b"no place"),
        Answer::Used => push(text, b"used"),
        Answer::Unused => push(text, b"unused"),
        Answer::Already => push(text, b"already"),
        Answer::NoStore => push(text, b"no store"),
        Answer::Quiet => push(text, b"quiet"),
        Answer::Spent => push(text, b"spent"),
        Answer::Message(from, bytes) => push_message(text, *from, bytes),
        Answer::State(status) => push_status(text, *status),
        Answer::Entries(count) => {
            push(text, b"entries")?;
            push_number(text, *count)
        }
    }
}

/// A message: who sent it, and its bytes.
fn push_message(text: &mut Vec<u8>, from: Place, bytes: &Bytes) -> Result<(), AllocError>
    ensures { OnOk result (text.new.items ≡ text.old.items
        ++ joined_words (codes "message" ∷ place_text from ∷ bytes_text bytes.now ∷ [])) }
{
    push(text, b"message ")?;
    push_place(text, from)?;
    push_data(text, bytes.as_slice())
}

/// How many nodes are free, and which cubes are held.
fn push_peek_result(
    text: &mut Vec<u8>,
    run_record: &Record,
    peek_result: &PeekResult,
) -> Result<(), AllocError>
    ensures { OnOk result
        (text.new.items ≡ text.old.items ++ peeked_text run_record.now peek_result.now) }
{
    push(text, b"free")?;
    push_number(text, u64::from(peek_result.free))?;
    push_grants(text, run_record, peek_result.grants.as_slice())
}

/// The cubes that are held.
fn push_grants(text: &mut Vec<u8>, run_record: &Record, grants: &[Grant]) -> Result<(), AllocError>
    ensures { OnOk result (text.new.items
        ≡ text.old.items ++ flat_map (grant_text run_record.now) grants.now) }
{
    for grant in grants {
        push_grant(text, run_record, grant)?;
    }
    Ok(())
}

/// A cube that is held, behind what stands before it.
fn push_grant(text: &mut Vec<u8>, run_record: &Record, grant: &Grant) -> Result<(), AllocError>
    ensures { OnOk result
        (text.new.items ≡ text.old.items ++ grant_text run_record.now grant.now) }
{
    push(text, b", ")?;
    push(text, user_name(run_record, grant.user))?;
    push_extent(text, grant)
}

/// The dimension of a cube and its subcube, with a space before each word.
pub(crate) fn push_extent(text: &mut Vec<u8>, grant: &Grant) -> Result<(), AllocError>
    ensures { OnOk result (text.new.items ≡ text.old.items
        ++ spaced_words (codes "dim" ∷ decimal grant.now.dim ∷ subcube_words grant.now.sub)) }
{
    push(text, b" dim")?;
    push_number(text, u64::from(grant.dim))?;
    push_subcube(text, grant.sub)
}
