//! Why a text isn't a script.

ghost use Rattle.std.specs.Prelude.{◌≡◌, ◌≤◌, length};
ghost use Rattle.agent_script.specs.Names.{script_flaw_name};

use std::alloc::{AllocError, AllocFailed};
use thiserror::Error;

/// The maximal length in bytes of a kind's name.
pub const MAX_KIND: usize = 5;

/// What is wrong with a line, in the order of the tests; last, what is wrong with all lines.
#[derive(Clone, Copy, Debug, PartialEq, Eq, Error)]
pub enum ScriptFlaw {
    /// The first word is neither `load` nor `turn`.
    #[error("the line must begin with the word load or turn")]
    Word,
    /// The line has too many or too few words, a number isn't one, or a word isn't UTF-8.
    #[error("the line must read load POLICY FILE PACKETS or turn A N")]
    Form,
    /// A `load` line comes after a `turn` line.
    #[error("a load behind a turn")]
    Late,
    /// A `load` line comes after `MAX_LOADS` others.
    #[error("the script loads more than 16 agents")]
    Many,
    /// A turn names an agent that isn't loaded.
    #[error("the turn names an agent that no line loads")]
    Agent,
    /// No line loads an agent.
    #[error("the script has no load line")]
    Empty,
}

impl ScriptFlaw {
    /// Returns the kind's name, of at most `MAX_KIND` bytes, as the line that reports the fault
    /// shows it.
    pub fn name(self) -> &'static str
        ensures exact { result.now ≡ script_flaw_name self }
        ensures short { length result.now ≤ MAX_KIND }
    {
        match self {
            ScriptFlaw::Word => "Word",
            ScriptFlaw::Form => "Form",
            ScriptFlaw::Late => "Late",
            ScriptFlaw::Many => "Many",
            ScriptFlaw::Agent => "Agent",
            ScriptFlaw::Empty => "Empty",
        }
    }
}

/// Why reading a text gave no script.
#[derive(Clone, Copy, Debug, PartialEq, Eq, Error)]
pub enum ScriptFault {
    /// The first wrong line, numbered from 1, and what is wrong with it; line 0 if no line loads an
    /// agent.
    #[error("line {0}: {1}")]
    At(u32, ScriptFlaw),
    /// There was no memory for the script; this says nothing about the text.
    #[error("out of memory")]
    Memory,
}

impl From<AllocError> for ScriptFault {
    ghost use Rattle.agent_script.specs.declared.fault.ScriptFault.TheVariants.{Memory};

    ghost from_gives = { λ _ e. e ≡ Memory };

    fn from(_fault: AllocError) -> ScriptFault {
        ScriptFault::Memory
    }
}

impl<T: Drop> From<AllocFailed<T>> for ScriptFault {
    ghost use Rattle.agent_script.specs.declared.fault.ScriptFault.TheVariants.{Memory};

    ghost from_gives = { λ _ e. e ≡ Memory };

    fn from(_fault: AllocFailed<T>) -> ScriptFault {
        ScriptFault::Memory
    }
}
