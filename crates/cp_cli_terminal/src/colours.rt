//! When lines are coloured.

ghost use Rattle.std.specs.Prelude.{◌≡◌, Some};
ghost use Rattle.cp_cli_terminal.specs.Choices.{are_shown, IsNamed};

/// When lines are coloured.
#[derive(Clone, Copy)]
pub enum Colours {
    /// On a terminal, unless the environment refuses colours.
    Auto,
    /// Always.
    Always,
    /// Never.
    Never,
}

impl Colours {
    /// The choice with this name.
    pub fn named(name: &str) -> Option<Colours>
        ensures { IsNamed name.now result }
    {
        match name {
            "auto" => Some(Colours::Auto),
            "always" => Some(Colours::Always),
            "never" => Some(Colours::Never),
            _ => None,
        }
    }

    /// Whether lines are coloured, on a terminal or elsewhere, if the environment refuses colours
    /// or doesn't.
    pub fn are_shown(self, is_terminal: bool, is_refused: bool) -> bool
        ensures { result ≡ are_shown self is_terminal is_refused }
    {
        match self {
            Colours::Auto => is_terminal && !is_refused,
            Colours::Always => true,
            Colours::Never => false,
        }
    }
}
