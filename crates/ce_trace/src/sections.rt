//! The sections of a report, one for each cube that was granted.
ghost use Rattle.std.specs.Prelude.{◌≡◌, ◌++◌, OnOk, flat_map};
ghost use Rattle.ce_model.specs.Views.{grants_of, trace_behind};
ghost use Rattle.ce_script.specs.EntryText.{entry_line};
ghost use Rattle.ce_script.specs.Texts.{cube_line};
ghost use Rattle.ce_trace.specs.Links.{last_entries, links_of, IsOwnLink};
ghost use Rattle.ce_trace.specs.Sections.{sections_text};
ghost use Rattle.ce_daemon.specs.Peeks.{cube_grant};

use crate::digits::push_number;
use crate::entries::push_entry;
use crate::grants::{entry_grant_numbered, is_call, is_drain};
use crate::names::user_name;
use crate::replies::push_extent;
use crate::words::{push, push_line_feed, push_word};
use ce_daemon::Grant;
use ce_model::Entry;
use ce_script::{Record, Script};
use std::alloc::AllocError;

/// The sections of all cubes, in the order in which they were granted.
pub(crate) fn push_sections(
    text: &mut Vec<u8>,
    script: &Script,
    run_record: &Record,
    history: &[Entry],
    links: &[usize],
) -> Result<(), AllocError>
    requires { links.now ≡ links_of history.now }
    ensures { OnOk result (text.new.items
        ≡ text.old.items ++ sections_text script.now run_record.now 0 history.now) }
{
    let mut number = 0;
    for (index, entry) in history.iter().enumerate() {
        if let Some(grant) = entry_grant_numbered(entry, number) {
            let next = links[history.len() - index - 1];
            push_head(text, run_record, &grant)?;
            push_trace(text, script, history, links, &grant, next)?;
            number += 1;
        }
    }
    Ok(())
}

/// The head of a cube's section: whose it is and which nodes it is.
fn push_head(text: &mut Vec<u8>, run_record: &Record, grant: &Grant) -> Result<(), AllocError>
    ensures { OnOk result (text.new.items
        ≡ text.old.items ++ cube_line run_record.now grant.now.number (cube_grant grant.now)) }
{
    push(text, b"cube")?;
    push_number(text, grant.number)?;
    push(text, b" user")?;
    push_word(text, user_name(run_record, grant.user))?;
    push_extent(text, grant)?;
    push_line_feed(text)
}

/// A line for each entry of the cube's trace. From the next entry of its user on the history has
/// `next` entries.
fn push_trace(
    text: &mut Vec<u8>,
    script: &Script,
    history: &[Entry],
    links: &[usize],
    grant: &Grant,
    next: usize,
) -> Result<(), AllocError>
    requires linked { links.now ≡ links_of history.now }
    requires own { IsOwnLink history.now grant.now.user next }
    ensures { OnOk result (text.new.items ≡ text.old.items ++ flat_map (entry_line script.now)
        (trace_behind (cube_grant grant.now) (last_entries next history.now))) }
{
    let mut count_left = next;
    while count_left > 0 {
        let entry = &history[history.len() - count_left];
        if is_drain(&entry.what) {
            break;
        }
        if is_call(&entry.what) {
            push_entry(text, script, grant.sub, entry)?;
        }
        count_left = links[count_left - 1];
    }
    Ok(())
}
