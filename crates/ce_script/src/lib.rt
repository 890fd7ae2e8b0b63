//! The language of scripts, and what is kept of a script's run.
#![tactic(auto)]

mod grammar;
mod laws;
mod limited_script;
mod load;
mod name;
mod reader;
mod record;
mod script;
mod spelling;
#[cfg(test)]
mod tests;
mod texts;

pub use grammar::Verb;
pub use laws::{grammar_law, limits_law};
pub use limited_script::LimitedScript;
pub use load::make;
pub use name::Name;
pub use reader::read_script;
pub use record::{Record, UserRecord};
pub use script::{NamedImage, Script, ScriptFault, ScriptKind};
pub use texts::KindText;
