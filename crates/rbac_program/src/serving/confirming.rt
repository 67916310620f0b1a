//! What is asked of the members at the end.
ghost use Rattle.std.specs.Prelude.{◌≡◌, true, OnOk};
ghost use Rattle.rbac_words.specs.Keeping.Members.{world_of};
ghost use Rattle.rbac_words.specs.Right.{AreHistoriesRight};
ghost use Rattle.rbac_node.specs.Node.{members_of};
ghost use Rattle.rbac_program.specs.Serving.{AreConfirmed, IsConfirmed};

use crate::fault::Fault;
use rbac_service::{GroupName, Node, Pass, audit};
use std::alloc::Global;

// Whether the node of the pass's member confirms it.
fn is_confirmed<G: GroupName>(nodes: &mut [Node<G>], pass: &mut Pass<G>) -> bool
    ensures confirmed { result ≡ true → IsConfirmed nodes.old pass.old }
    ensures nodes { nodes.new ≡ nodes.old }
    ensures pass { pass.new ≡ pass.old }
{
    for place in 0..nodes.len() {
        if nodes[place].confirms(pass) {
            return true;
        }
    }
    false
}

/// Audits the nodes, and asks each to confirm the passes of its member. On Ok their members are a world in which each history is
/// right, and each pass's front begins its member's history.
pub(crate) fn confirm<'w, G: GroupName>(
    alloc: Global,
    nodes: &mut [Node<G>],
    passes: &mut [Pass<G>],
) -> Result<(), Fault<'w>>
    ensures right { OnOk result (AreHistoriesRight (world_of G.group G.vocabulary (members_of nodes.old))) }
    ensures confirmed { OnOk result (AreConfirmed nodes.old passes.old) }
{
    audit(alloc, nodes)?;
    for place in 0..passes.len() {
        if !is_confirmed(nodes, &mut passes[place]) {
            return Err(Fault::NotConfirmed);
        }
    }
    Ok(())
}
