ghost use Rattle.std.specs.Prelude.{◌≡◌};
ghost use Rattle.std.specs.Str.{IsUtf8};

use cam_base::{NoMemory, Text};
use std::alloc::AllocError;
use thiserror::Error;

/// What the words ask for.
#[derive(Drop)]
pub enum Command {
    /// Compiles the source of this root, and writes under this base.
    Compile {
        root: Text,
        base: Text,
    },
    /// Checks the capDL against a policy and a certificate.
    Check {
        cdl: Text,
        policy: Text,
        cert: Text,
    },
    /// Prints what the connectors of the source of this root assign.
    List {
        root: Text,
    },
    /// Prints why a label of the source of this root has an authority over another.
    Explain {
        root: Text,
        from: Text,
        authority: Text,
        to: Text,
    },
    /// Applies steps to the capDL's system, in their order.
    Replay {
        cdl: Text,
        policy: Text,
        steps: Text,
    },
    /// Compiles the source that is generated for so many clients, and checks what is compiled.
    Generate {
        count: u64,
    },
    /// Prints what any run of the capDL's system reaches, and steps that show it.
    Audit {
        cdl: Text,
        policy: Text,
    },
    /// Prints the least certificate of the capDL's system.
    Certify {
        cdl: Text,
        policy: Text,
    },
    /// Prints the section table of an ELF file.
    Sections {
        elf: Text,
    },
    /// Prints where the capDL's objects go in regions of memory.
    Plan {
        cdl: Text,
        untypeds: Text,
    },
}

/// A word of a command, which is UTF-8, as the name that files go by. Takes no memory.
pub fn as_name(word: &Text) -> &str
    requires { IsUtf8 word.now }
    ensures { result.now ≡ word.now }
{
    str::from_utf8(word.as_bytes()).unwrap()
}

/// Why no command was read.
#[derive(Clone, Copy, Debug, Error)]
pub enum WordsError {
    /// The words are no command.
    #[error("no command")]
    Usage,
    /// Want of memory.
    #[error("no memory")]
    NoMemory,
}

impl From<NoMemory> for WordsError {
    ghost use Rattle.std.specs.Prelude.{◌≡◌};
    ghost use Rattle.command_words.specs.declared.command.WordsError.TheVariants.{NoMemory as WordsNoMemory};

    ghost from_gives = { λ _ e. e ≡ WordsNoMemory };

    fn from(_: NoMemory) -> WordsError {
        WordsError::NoMemory
    }
}

impl From<AllocError> for WordsError {
    ghost use Rattle.std.specs.Prelude.{◌≡◌};
    ghost use Rattle.command_words.specs.declared.command.WordsError.TheVariants.{NoMemory as WordsNoMemory};

    ghost from_gives = { λ _ e. e ≡ WordsNoMemory };

    fn from(_: AllocError) -> WordsError {
        WordsError::NoMemory
    }
}
