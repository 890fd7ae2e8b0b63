//! A user's commands.
ghost use Rattle.std.specs.Prelude.{◌≡◌, ◌∷◌, ◌++◌, OnOk, decimal};
ghost use Rattle.ce_text.specs.Bytes.{space};
ghost use Rattle.ce_script.specs.TextParts.{joined_words};
ghost use Rattle.ce_script.specs.Verbs.{verb_word};
ghost use Rattle.ce_script.specs.CommandText.{command_words, place_words};
ghost use Rattle.ce_trace.specs.Spaced.{spaced_words};

use crate::digits::{push_data, push_number};
use crate::names::image_name;
use crate::places::push_place_words;
use crate::words::{push, push_word};
use ce_host::Command;
use ce_model::Place;
use ce_script::{Script, Verb};
use std::alloc::AllocError;

/// A command, as a script has it.
pub(crate) fn push_command(
    text: &mut Vec<u8>,
    script: &Script,
    command: &Command,
) -> Result<(), AllocError>
    ensures { OnOk result (text.new.items
        ≡ text.old.items ++ joined_words (command_words script.now command.now)) }
{
    match command {
        Command::Getcube(dim) => push_verb_with_number(text, Verb::Getcube, *dim),
        Command::Peek => push_verb(text, Verb::Peek),
        Command::Freecube => push_verb(text, Verb::Freecube),
        Command::Spawn(image, to) => {
            push_verb(text, Verb::Spawn)?;
            push_word(text, image_name(script, *image))?;
            push_place_words(text, *to)
        }
        Command::Kill(to) => push_verb_with_place(text, Verb::Kill, *to),
        Command::Send(to, bytes) => {
            push_verb_with_place(text, Verb::Send, *to)?;
            push_data(text, bytes.as_slice())
        }
        Command::Run(count) => push_verb_with_number(text, Verb::Run, *count),
        Command::Recv(count) => push_verb_with_number(text, Verb::Recv, *count),
        Command::Dump(place) => push_verb_with_place(text, Verb::Dump, *place),
        Command::Trace => push_verb(text, Verb::Trace),
    }
}

/// A verb.
fn push_verb(text: &mut Vec<u8>, verb: Verb) -> Result<(), AllocError>
    ensures { OnOk result (text.new.items ≡ text.old.items ++ verb_word verb) }
{
    push(text, verb.word().as_bytes())
}

/// A verb with a number.
fn push_verb_with_number(text: &mut Vec<u8>, verb: Verb, number: u32) -> Result<(), AllocError>
    ensures { OnOk result
        (text.new.items ≡ text.old.items ++ (verb_word verb ++ (space ∷ decimal number))) }
{
    push_verb(text, verb)?;
    push_number(text, u64::from(number))
}

/// A verb with a place.
fn push_verb_with_place(text: &mut Vec<u8>, verb: Verb, place: Place) -> Result<(), AllocError>
    ensures { OnOk result
        (text.new.items ≡ text.old.items ++ (verb_word verb ++ spaced_words (place_words place))) }
{
    push_verb(text, verb)?;
    push_place_words(text, place)
}
