//! Reading and writing are inverse, and what is read in two ways is read as the same.
ghost use Rattle.std.specs.Prelude.{◌≡◌, ◌≤◌, ℕ, List, length, Ok};
ghost use Rattle.line_engine.specs.Lines.{longest_line};
ghost use Rattle.rbac_terms.specs.declared.command.Command.{Command};
ghost use Rattle.rbac_text.specs.Asked.{asked};
ghost use Rattle.rbac_text.specs.Client.{client};
ghost use Rattle.rbac_text.specs.Command.{command_fields};
ghost use Rattle.rbac_text.specs.CommandText.{command_text, AreFields};
ghost use Rattle.rbac_text.specs.ReadCommand.{command};

/// The text of a command reads as just that command, where it is no longer than a text may be. What `put_command` writes has such
/// fields (its clause `fit`). It does nothing: its clause is a law on commands.
pub fn written_command_is_read()
    ensures { (written : Command) → AreFields (command_fields written) → length (command_text written) ≤ longest_line → command (command_text written) ≡ Ok written }
{}

/// What is read as a command, or as a client line, is asked of whoever has one policy as just that command. It does nothing: its clauses
/// are laws on texts.
pub fn what_is_read_is_asked()
    ensures alone { (text : List ℕ) → (told : Command) → command text ≡ Ok told → asked text ≡ Ok told }
    ensures in_line { (text : List ℕ) → (at : ℕ) → (told : Command) → client text ≡ Ok (at, told) → asked text ≡ Ok told }
{}
