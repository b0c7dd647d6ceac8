ghost use Rattle.std.specs.Prelude.{◌≡◌};
ghost use Rattle.command_forms.specs.Forms.{command_form, command_name_of, words_repeat, takes_arguments};
ghost use Rattle.command_forms.specs.Answers.{shown};

/// The first word, which says what the others may be.
#[derive(Clone, Copy, Debug, PartialEq, Eq)]
pub enum CommandName {
    Go,
    Translate,
    Interp,
    Run,
    Verify,
    Frames,
    Check,
    Asm,
    List,
    Make,
    Link,
    Pipe,
}

impl CommandName {
    /// The command of this name, none where there is no such command.
    pub fn of(word: &str) -> Option<CommandName>
        ensures { result ≡ command_name_of word.now }
    {
        match word {
            "go" => Some(CommandName::Go),
            "translate" => Some(CommandName::Translate),
            "interp" => Some(CommandName::Interp),
            "run" => Some(CommandName::Run),
            "verify" => Some(CommandName::Verify),
            "frames" => Some(CommandName::Frames),
            "check" => Some(CommandName::Check),
            "asm" => Some(CommandName::Asm),
            "list" => Some(CommandName::List),
            "make" => Some(CommandName::Make),
            "link" => Some(CommandName::Link),
            "pipe" => Some(CommandName::Pipe),
            _ => None,
        }
    }

    /// The names of its plain words, none where they repeat.
    pub fn words(self) -> &'static [&'static str]
        ensures { shown result.now ≡ (command_form self).words }
    {
        match self {
            CommandName::Go | CommandName::Translate | CommandName::Interp | CommandName::List => &[
                "IN",
            ],
            CommandName::Run | CommandName::Verify | CommandName::Frames | CommandName::Check => &[
                "NAME",
            ],
            CommandName::Asm => &["IN", "OUT"],
            CommandName::Make => &["N"],
            CommandName::Link | CommandName::Pipe => &[],
        }
    }

    /// Whether its plain words repeat.
    pub fn repeats(self) -> bool
        ensures { result ≡ words_repeat self }
    {
        matches!(self, CommandName::Link | CommandName::Pipe)
    }

    /// The names of its options.
    pub fn options(self) -> &'static [&'static str]
        ensures { shown result.now ≡ (command_form self).options }
    {
        match self {
            CommandName::Go => &[
                "name",
                "heap",
                "stack",
                "method-bytes",
                "meter",
                "steps",
                "disk",
                "with",
                "keep",
            ],
            CommandName::Translate => &["name", "heap", "stack", "method-bytes", "meter"],
            CommandName::Interp => &["name", "heap", "stack", "steps", "disk", "with", "keep"],
            CommandName::Run => &["words", "steps", "disk", "with", "keep"],
            CommandName::Make => &["method-bytes"],
            CommandName::Link => &["entry"],
            CommandName::Pipe => &["words", "steps", "disk", "pipe"],
            CommandName::Verify
            | CommandName::Frames
            | CommandName::Check
            | CommandName::Asm
            | CommandName::List => &[],
        }
    }

    /// Whether it may have arguments after `--`.
    pub(crate) fn takes_arguments(self) -> bool
        ensures { result ≡ takes_arguments self }
    {
        matches!(
            self,
            CommandName::Go | CommandName::Interp | CommandName::Run
        )
    }
}
