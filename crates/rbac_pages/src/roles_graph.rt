//! The roles of a policy as a graph.
ghost use Rattle.std.specs.Prelude.{◌≡◌, ◌++◌, IfOk, OnOk};
ghost use Rattle.std.specs.List.{flat_map};
ghost use Rattle.rbac_pages.specs.GraphText.{node_text, edge_text, graph_text};

use rbac_decide::Policy;
use rbac_terms::Name;
use std::alloc::{AllocError, Global};

fn put_node(text: &mut Vec<u8>, role: &Name) -> Result<(), AllocError>
    ensures { OnOk result (text.new.items ≡ text.old.items ++ node_text role.now) }
{
    text.extend_from_slice(b"  \"")?;
    text.extend_from_slice(role.as_bytes())?;
    text.extend_from_slice(b"\";\n")
}

fn put_edge(text: &mut Vec<u8>, pair: &(Name, Name)) -> Result<(), AllocError>
    ensures { OnOk result (text.new.items ≡ text.old.items ++ edge_text pair.now) }
{
    text.extend_from_slice(b"  \"")?;
    text.extend_from_slice(pair.0.as_bytes())?;
    text.extend_from_slice(b"\" -> \"")?;
    text.extend_from_slice(pair.1.as_bytes())?;
    text.extend_from_slice(b"\";\n")
}

fn put_nodes(text: &mut Vec<u8>, roles: &[Name]) -> Result<(), AllocError>
    ensures { OnOk result (text.new.items ≡ text.old.items ++ flat_map node_text roles.now) }
{
    for role in roles {
        put_node(text, role)?;
    }
    Ok(())
}

fn put_edges(text: &mut Vec<u8>, pairs: &[(Name, Name)]) -> Result<(), AllocError>
    ensures { OnOk result (text.new.items ≡ text.old.items ++ flat_map edge_text pairs.now) }
{
    for pair in pairs {
        put_edge(text, pair)?;
    }
    Ok(())
}

/// The roles of a policy and its declared pairs as a graph in the language of Graphviz. An edge leads from the ascendant to the
/// descendant, and reads: inherits.
///
/// # Errors
/// `AllocError` where there is no memory for it.
pub fn graph(alloc: Global, policy: &Policy) -> Result<Vec<u8>, AllocError>
    ensures { IfOk result (λ text. text.items ≡ graph_text policy.now) }
{
    let mut text = Vec::new(alloc);
    text.extend_from_slice(b"digraph roles {\n  node [shape=box];\n")?;
    put_nodes(&mut text, policy.roles())?;
    put_edges(&mut text, policy.declarations())?;
    text.extend_from_slice(b"}\n")?;
    Ok(text)
}
