//! What is known behind some statements.
ghost use Rattle.std.specs.Prelude.{◌≡◌, Some, is_some};
ghost use Rattle.ce_script.specs.Reading.{HasJudged, place_fault};
ghost use Rattle.ce_script.specs.Standing.{blank_script};

use crate::grammar::Verb;
use crate::script::{Script, ScriptKind};
use sqlite_items::Items;
use std::alloc::Global;

/// What the statements so far say.
#[derive(Drop)]
pub struct ScriptSoFar {
    /// The script so far.
    pub script: Script,
    /// The number of the user whose commands follow.
    pub user: Option<u32>,
}

impl ScriptSoFar {
    /// Nothing is said.
    pub fn new(alloc: Global) -> ScriptSoFar
        ensures { result ≡ blank_script }
    {
        ScriptSoFar {
            script: Script {
                dim: None,
                images: Items::new(alloc),
                users: Items::new(alloc),
                commands: Items::new(alloc),
            },
            user: None,
        }
    }

    /// Whether a statement with this verb may stand here.
    #[tactic(auto, unfolding(crate::specs::Reading::place_fault))]
    pub fn check_place(&self, verb: Verb) -> Result<(), ScriptKind>
        ensures { HasJudged result
            (place_fault (is_some self.now.script.dim) (is_some self.now.user) verb) (Some tt) }
    {
        if matches!(verb, Verb::Machine) {
            if self.script.dim.is_some() {
                return Err(ScriptKind::SecondMachine);
            }
            return Ok(());
        }
        if self.script.dim.is_none() {
            return Err(ScriptKind::NoMachine);
        }
        if verb.is_command() && self.user.is_none() {
            return Err(ScriptKind::NoUser);
        }
        Ok(())
    }
}
