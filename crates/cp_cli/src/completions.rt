//! The scripts by which shells complete the words of a command line. They list the commands and
//! the options of the grammar.

use crate::arguments::Argument;
use crate::grammar::{COMMANDS, Words};
use std::alloc::{AllocError, Global};

/// A shell that completes words.
#[derive(Clone, Copy)]
pub enum Shell {
    Bash,
    Zsh,
    Fish,
}

impl Shell {
    /// The shell with this name.
    pub(crate) fn named(name: &str) -> Option<Shell> {
        match name {
            "bash" => Some(Shell::Bash),
            "zsh" => Some(Shell::Zsh),
            "fish" => Some(Shell::Fish),
            _ => None,
        }
    }
}

const BASH_START: &str = "_cpm() {
  local word=${COMP_WORDS[COMP_CWORD]} words=
  if ((COMP_CWORD == 1)); then
    words='";

const BASH_OPTIONS: &str = " help --help --version'
  elif [[ $word == -* ]]; then
    case ${COMP_WORDS[1]} in
";

const BASH_END: &str = "    esac
  fi
  COMPREPLY=($(compgen -W \"$words\" -- \"$word\"))
}
complete -o default -F _cpm cpm
";

const ZSH_START: &str = "#compdef cpm
_cpm() {
  local -a commands
  if ((CURRENT == 2)); then
    commands=(
";

const ZSH_OPTIONS: &str = "    )
    _describe command commands
    return
  fi
  shift words
  ((CURRENT--))
  case $words[1] in
";

const ZSH_END: &str = "  esac
}
if [[ $funcstack[1] == _cpm ]]; then _cpm \"$@\"; else compdef _cpm cpm; fi
";

// What characters are written as between apostrophes, for zsh and for fish. In zsh brackets and
// colons end parts of what is between the apostrophes.
const ZSH_FORMS: [(u8, &str); 5] = [
    (b'\'', "'\\''"),
    (b'[', "\\["),
    (b']', "\\]"),
    (b':', "\\:"),
    (b'\\', "\\\\"),
];

const FISH_FORMS: [(u8, &str); 2] = [(b'\'', "\\'"), (b'\\', "\\\\")];

// The form of a byte, if it has one of its own.
fn form_of<'a>(byte: u8, forms: &[(u8, &'a str)]) -> Option<&'a str> {
    for (other, form) in forms {
        if *other == byte {
            return Some(*form);
        }
    }
    None
}

/// A script that grows at its end. If memory runs out, it takes no more, and `finish` fails.
#[derive(Drop)]
struct Script {
    bytes: Vec<u8>,
    is_whole: bool,
}

impl Script {
    fn new(alloc: Global) -> Script {
        Script {
            bytes: Vec::new(alloc),
            is_whole: true,
        }
    }

    fn finish(self) -> Result<Vec<u8>, AllocError> {
        let Script { bytes, is_whole } = self;
        if is_whole { Ok(bytes) } else { Err(AllocError) }
    }

    // Adds a text.
    fn text(&mut self, text: &str) {
        if self.is_whole {
            self.is_whole = self.bytes.extend_from_slice(text.as_bytes()).is_ok();
        }
    }

    // Adds a text in which these bytes have another form.
    fn escaped(&mut self, text: &str, forms: &[(u8, &str)]) {
        for byte in text.as_bytes() {
            self.escaped_byte(*byte, forms);
        }
    }

    fn escaped_byte(&mut self, byte: u8, forms: &[(u8, &str)]) {
        match form_of(byte, forms) {
            Some(form) => self.text(form),
            None => self.byte(byte),
        }
    }

    fn byte(&mut self, byte: u8) {
        if self.is_whole {
            self.is_whole = self.bytes.push(byte).is_ok();
        }
    }

    // Adds the names of all options of a command.
    fn names(&mut self, command: &Words) {
        for argument in command.arguments {
            if !argument.is_placed() {
                self.text("--");
                self.text(argument.name());
                self.text(" ");
            }
        }
        self.text("--help");
    }

    // Adds the names of all commands.
    fn commands(&mut self) {
        for command in COMMANDS.as_slice() {
            self.text(command.name);
            self.text(" ");
        }
    }

    fn bash(&mut self) {
        self.text(BASH_START);
        self.commands();
        self.text(BASH_OPTIONS);
        for command in COMMANDS.as_slice() {
            self.text("      ");
            self.text(command.name);
            self.text(") words='");
            self.names(command);
            self.text("' ;;\n");
        }
        self.text(BASH_END);
    }

    // Adds how an option is completed by zsh, or nothing if it is given by its place.
    fn zsh_option(&mut self, argument: &Argument) {
        if argument.is_placed() {
            return;
        }
        self.text(if argument.is_repeated() {
            " \\\n        '*--"
        } else {
            " \\\n        '--"
        });
        self.text(argument.name());
        if argument.value().is_some() {
            self.text("=");
        }
        self.text("[");
        self.escaped(argument.about(), ZSH_FORMS.as_slice());
        self.text("]");
        if let Some(value) = argument.value() {
            self.text(":");
            self.text(value);
            self.text(":_files");
        }
        self.text("'");
    }

    fn zsh_command(&mut self, command: &Words) {
        self.text("    ");
        self.text(command.name);
        self.text(")\n      _arguments \\\n        '--help[prints help]'");
        for argument in command.arguments {
            self.zsh_option(argument);
        }
        self.text(" \\\n        '*:FILE:_files' ;;\n");
    }

    fn zsh(&mut self) {
        self.text(ZSH_START);
        for command in COMMANDS.as_slice() {
            self.text("      '");
            self.text(command.name);
            self.text(":");
            self.escaped(command.about, ZSH_FORMS.as_slice());
            self.text("'\n");
        }
        self.text(ZSH_OPTIONS);
        for command in COMMANDS.as_slice() {
            self.zsh_command(command);
        }
        self.text(ZSH_END);
    }

    // Adds how an option of a command is completed by fish, or nothing if it is given by its place.
    fn fish_option(&mut self, command: &Words, argument: &Argument) {
        if argument.is_placed() {
            return;
        }
        self.text("complete -c cpm -n '__fish_seen_subcommand_from ");
        self.text(command.name);
        self.text("' -l ");
        self.text(argument.name());
        if argument.value().is_some() {
            self.text(" -r");
        }
        self.text(" -d '");
        self.escaped(argument.about(), FISH_FORMS.as_slice());
        self.text("'\n");
    }

    fn fish_command(&mut self, command: &Words) {
        self.text("complete -c cpm -n __fish_use_subcommand -f -a ");
        self.text(command.name);
        self.text(" -d '");
        self.escaped(command.about, FISH_FORMS.as_slice());
        self.text("'\n");
        for argument in command.arguments {
            self.fish_option(command, argument);
        }
    }

    fn fish(&mut self) {
        self.text("complete -c cpm -l help -d 'prints help'\n");
        for command in COMMANDS.as_slice() {
            self.fish_command(command);
        }
    }
}

/// The script by which a shell completes the words of a command line: the names of commands, and
/// the options of each.
///
/// # Errors
///
/// `AllocError` if memory runs out.
pub fn completions(alloc: Global, shell: Shell) -> Result<Vec<u8>, AllocError> {
    let mut script = Script::new(alloc);
    match shell {
        Shell::Bash => script.bash(),
        Shell::Zsh => script.zsh(),
        Shell::Fish => script.fish(),
    }
    script.finish()
}
