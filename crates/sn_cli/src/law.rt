//! A law on the words of commands.
ghost use Rattle.std.specs.Prelude.{◌≡◌, ℕ, List};
ghost use Rattle.sn_cli.specs.declared.command.Command.{Command};
ghost use Rattle.sn_cli.specs.Grammar.{Spells};

/// A law, with nothing to run: words spell at most one command.
pub fn words_spell_one_command()
    ensures { (words : List (List ℕ)) (first second : Command) → Spells words first → Spells words second → first ≡ second }
{}
