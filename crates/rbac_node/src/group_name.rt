//! Which founding a node, a pass or a service belongs to.

use std::marker::Brand;

/// Names one founding: its group, its vocabulary, and the cells of its rows. Nodes and passes of one name belong together. It
/// has no calls: a function that is generic in it says by a condition which founding it names, and its caller picks it.
pub trait GroupName {
    ghost use Rattle.rbac_terms.specs.Vocabulary.{Vocabulary};
    ghost use Rattle.rbac_words.specs.Group.{Group};
    ghost use Rattle.rbac_node.specs.Cells.{Cells};

    ghost group: { Group };

    ghost vocabulary: { Vocabulary };

    ghost cells: { Cells };
}

impl GroupName for Brand {
    ghost use Rattle.rbac_terms.specs.Vocabulary.{no_vocabulary};
    ghost use Rattle.rbac_words.specs.Keeping.Members.{no_group};
    ghost use Rattle.rbac_node.specs.Cells.{no_cells};

    ghost group = { no_group };

    ghost vocabulary = { no_vocabulary };

    ghost cells = { no_cells };
}
