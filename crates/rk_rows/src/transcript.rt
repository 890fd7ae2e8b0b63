use ce_model::{BlockId, HOST, KillResult, Place};
use rk_mail::Hearing;
use std::alloc::AllocError;
use std::fmt::Write;

/// What a node said and heard, a line for each exchange, or nothing where that isn't asked for.
#[derive(Drop)]
pub(crate) struct Transcript {
    pub text: Option<String>,
}

impl Transcript {
    /// A Take: the ids that wait for a message, those that have stopped, who polls longest, and the
    /// answer.
    pub fn write_take(
        &mut self,
        asking: u32,
        dead: u32,
        poller: Option<u32>,
        hearing: &Hearing,
    ) -> Result<(), AllocError> {
        let Some(text) = &mut self.text else {
            return Ok(());
        };
        write!(text, "take {asking} {dead} ")?;
        match poller {
            Some(pid) => write!(text, "{pid}")?,
            None => write!(text, "-")?,
        }
        match hearing {
            Hearing::Start { pid, image } => write!(text, " start {pid} {image}\n"),
            Hearing::Mail(parcel) => write!(text, " mail {} {}\n", parcel.to.pid, parcel.number),
            Hearing::Kill { pid } => write!(text, " kill {pid}\n"),
            Hearing::Poll { pid } => write!(text, " poll {pid}\n"),
            _ => write!(text, " idle\n"),
        }
    }

    /// A word that a process noted.
    pub fn write_note(&mut self, pid: u32, word: u32) -> Result<(), AllocError> {
        match &mut self.text {
            Some(text) => write!(text, "note {pid} {word}\n"),
            None => Ok(()),
        }
    }

    /// A spawn, and whether the process id is fresh.
    pub fn write_spawn(
        &mut self,
        pid: u32,
        image: u32,
        to: Place,
        is_fresh: bool,
    ) -> Result<(), AllocError> {
        let Some(text) = &mut self.text else {
            return Ok(());
        };
        let answer = if is_fresh { "ok" } else { "used" };
        write!(
            text,
            "spawn {pid} {image} {}.{} {answer}\n",
            to.node, to.pid
        )
    }

    /// A kill, and what was found.
    pub fn write_kill(&mut self, pid: u32, to: Place, found: KillResult) -> Result<(), AllocError> {
        let Some(text) = &mut self.text else {
            return Ok(());
        };
        let answer = match found {
            KillResult::Killed => "ok",
            KillResult::Unused => "unused",
            KillResult::Already => "already",
        };
        write!(text, "kill {pid} {}.{} {answer}\n", to.node, to.pid)
    }

    /// A message: who sends it, the number of its first parcel, and its bytes.
    pub fn write_message(&mut self, pid: u32, first: u64, bytes: &[u8]) -> Result<(), AllocError> {
        let Some(text) = &mut self.text else {
            return Ok(());
        };
        write!(text, "send {pid} {first} ")?;
        for byte in bytes {
            write!(text, "{byte:02x}")?;
        }
        Ok(())
    }

    /// A place of a message, and the block that goes there.
    pub fn write_target(&mut self, to: Place, id: BlockId) -> Result<(), AllocError> {
        let Some(text) = &mut self.text else {
            return Ok(());
        };
        if to.node == HOST {
            write!(text, " host.{}={}.{}", to.pid, id.home, id.index)
        } else {
            write!(text, " {}.{}={}.{}", to.node, to.pid, id.home, id.index)
        }
    }

    /// A message ends.
    pub fn write_end(&mut self) -> Result<(), AllocError> {
        match &mut self.text {
            Some(text) => write!(text, "\n"),
            None => Ok(()),
        }
    }
}
