//! What is kept of a client line.
ghost use Rattle.std.specs.Prelude.{◌≡◌, ℕ, List};
ghost use Rattle.line_engine.specs.Lines.{clip};
ghost use Rattle.rbac_text.specs.Client.{client};

/// What is kept of a line asks for the same as the line. It does nothing: its clause is a law on client lines.
pub fn kept_line_asks_the_same()
    ensures { (line : List ℕ) → client (clip line) ≡ client line }
{}
