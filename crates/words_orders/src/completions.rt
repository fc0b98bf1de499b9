//! What shells need to complete the words of the program.

ghost use Rattle.std.specs.Prelude.{◌≡◌};
ghost use Rattle.words_orders.specs.Asked.{shell_named};

use crate::completion_texts::{BASH, FISH, ZSH};

/// A shell that words are completed in.
#[derive(Clone, Copy, Drop)]
pub enum Shell {
    Bash,
    Zsh,
    Fish,
}

impl Shell {
    /// The shell of this name, one of those in the table.
    pub(crate) fn new(name: &str) -> Shell
        ensures { result ≡ shell_named name.now }
    {
        match name {
            "zsh" => Shell::Zsh,
            "fish" => Shell::Fish,
            _ => Shell::Bash,
        }
    }

    /// What the shell reads to complete words.
    pub fn completions(self) -> &'static str {
        match self {
            Shell::Bash => BASH,
            Shell::Zsh => ZSH,
            Shell::Fish => FISH,
        }
    }
}
