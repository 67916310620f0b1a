//! Words of the two kinds of sets.
ghost use Rattle.std.specs.Prelude.{◌≡◌};
ghost use Rattle.rbac_text.specs.Command.{by_kind};

use rbac_terms::Separation;

/// The one of two words that is of the kind.
pub(crate) fn by_kind(
    kind: Separation,
    static_word: &'static str,
    dynamic_word: &'static str,
) -> &'static str
    ensures { result.now ≡ by_kind kind static_word.now dynamic_word.now }
{
    match kind {
        Separation::Static => static_word,
        Separation::Dynamic => dynamic_word,
    }
}
