//! Laws of the definitions.

ghost use Rattle.std.specs.Prelude.{◌≡◌, List};
ghost use Rattle.jt_words.specs.Commands.{IsCommand, IsWithinLimits};
ghost use Rattle.jt_words.specs.Options.{Text};
ghost use Rattle.jt_words.specs.declared.command.Command.{Command};

/// No words are two commands.
pub fn words_are_one_command()
    ensures { (words : List Text) → (a : Command) → (b : Command) → IsCommand words a → IsCommand words b → a ≡ b }
{}

/// The numbers of a command lie within their limits.
pub fn commands_are_within_limits()
    ensures { (words : List Text) → (c : Command) → IsCommand words c → IsWithinLimits c }
{}
