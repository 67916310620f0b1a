//! An audit of all nodes of one founding.
ghost use Rattle.std.specs.Prelude.{ℕ, ◌≡◌, ◌≢◌, ◌≤◌, ◌<◌, ◌+◌, ◌↔◌, true, length, map, IfOk, IfErr, OnOk, OnErr, IsTrue};
ghost use Rattle.rbac_words.specs.World.{read_of};
ghost use Rattle.rbac_words.specs.Right.{AreHistoriesRight};
ghost use Rattle.rbac_words.specs.Keeping.Member.{node_of};
ghost use Rattle.rbac_words.specs.Keeping.Members.{AreMembers, HasRead, world_of};
ghost use Rattle.rbac_node.specs.Node.{IsNode, AreNodes, node_at, members_of, is_within};

use crate::group_name::GroupName;
use crate::node::Node;
use crate::report::{Audit, AuditRefusal};
use std::alloc::{AllocError, Global};

// Whether each node has the number of its place, counted from 1.
fn are_numbered<G: GroupName>(nodes: &[Node<G>]) -> bool
    ensures { IsTrue result ↔ ((i : ℕ) → i < length nodes.now → (node_at nodes.now i).member.number ≡ i + 1) }
{
    for (place, node) in nodes.iter().enumerate() {
        if node.member().number() as usize != place + 1 {
            return false;
        }
    }
    true
}

// Whether the node's member has read no more of each other one than that one's node has published.
fn is_within_each<G: GroupName>(node: &Node<G>, nodes: &[Node<G>]) -> bool
    requires numbered { (i : ℕ) → i < length nodes.now → (node_at nodes.now i).member.number ≡ i + 1 }
    requires count { length nodes.now ≡ node.now.member.group.members }
    ensures { IsTrue result ↔ ((j : ℕ) → j < length nodes.now → is_within node.now (node_at nodes.now j) ≡ true) }
{
    for other in nodes {
        if !node.is_within(other) {
            return false;
        }
    }
    true
}

// Whether no node's member has read more of another one than that one's node has published.
fn are_within<G: GroupName>(nodes: &[Node<G>]) -> bool
    requires numbered { (i : ℕ) → i < length nodes.now → (node_at nodes.now i).member.number ≡ i + 1 }
    requires count { length nodes.now ≡ G.group.members }
    ensures { IsTrue result ↔ ((i j : ℕ) → i < length nodes.now → j < length nodes.now → is_within (node_at nodes.now i) (node_at nodes.now j) ≡ true) }
{
    for node in nodes {
        node.invariants();
        if !is_within_each(node, nodes) {
            return false;
        }
    }
    true
}

// Whether the nodes are those of a group.
fn are_nodes<G: GroupName>(nodes: &[Node<G>]) -> bool
    ensures { IsTrue result ↔ AreNodes G.group nodes.now }
{
    let Some(first) = nodes.first() else {
        return false;
    };
    first.invariants();
    nodes.len() == first.members() && are_numbered(nodes) && are_within(nodes)
}

// What one node's member took of another one is the beginning of what that one sent.
fn compare<G: GroupName>(nodes: &mut [Node<G>], receiver: usize, sender: usize)
    requires nodes { AreNodes G.group nodes.old }
    requires receiver { receiver < length nodes.old }
    requires sender { sender < length nodes.old }
    requires apart { receiver ≢ sender }
    ensures read { HasRead (node_at nodes.old receiver).member (node_at nodes.old sender).member }
    ensures unchanged { nodes.new ≡ nodes.old }
{
    if receiver < sender {
        let (front, back) = nodes.split_at_mut(sender);
        front[receiver].agrees_with(&mut back[0]);
    } else {
        let (front, back) = nodes.split_at_mut(receiver);
        back[0].agrees_with(&mut front[sender]);
    }
}

// The same of each other one.
fn compare_with_each<G: GroupName>(nodes: &mut [Node<G>], receiver: usize)
    requires nodes { AreNodes G.group nodes.old }
    requires receiver { receiver < length nodes.old }
    ensures read { (j : ℕ) → j < length nodes.old → receiver ≢ j → HasRead (node_at nodes.old receiver).member (node_at nodes.old j).member }
    ensures unchanged { nodes.new ≡ nodes.old }
{
    for sender in 0..nodes.len() {
        if sender != receiver {
            compare(nodes, receiver, sender);
        }
    }
}

// The same of each two nodes.
fn compare_all<G: GroupName>(nodes: &mut [Node<G>])
    requires { AreNodes G.group nodes.old }
    ensures read { (i j : ℕ) → i < length nodes.old → j < length nodes.old → i ≢ j → HasRead (node_at nodes.old i).member (node_at nodes.old j).member }
    ensures unchanged { nodes.new ≡ nodes.old }
{
    for receiver in 0..nodes.len() {
        compare_with_each(nodes, receiver);
    }
}

// What each node keeps.
fn invariants_of<G: GroupName>(nodes: &[Node<G>])
    ensures kept { (i : ℕ) → i < length nodes.now → IsNode (node_at nodes.now i) }
    ensures group { (i : ℕ) → i < length nodes.now → (node_at nodes.now i).member.group ≡ G.group }
    ensures vocabulary { (i : ℕ) → i < length nodes.now → (node_at nodes.now i).member.vocabulary ≡ G.vocabulary }
{
    for node in nodes {
        node.invariants();
    }
}

// How many records each member delivered.
fn delivered<G: GroupName>(alloc: Global, nodes: &[Node<G>]) -> Result<Vec<usize>, AllocError>
    ensures { IfOk result (λ counts. counts.items ≡ map (λ n. length n.member.history) nodes.now) }
{
    let mut counts = Vec::with_capacity(alloc, nodes.len())?;
    for node in nodes {
        counts.push(node.member().history().len())?;
    }
    Ok(counts)
}

/// Holds the nodes of one founding against each other. Where they are each member once, in order of number, and none has read
/// more of another than that one's node has published, their members are a world in which each history is right. No node
/// changes.
///
/// # Errors
/// `NotAGroup` exactly where the nodes are not such, then `NoMemory`.
pub fn audit<G: GroupName>(alloc: Global, nodes: &mut [Node<G>]) -> Result<Audit, AuditRefusal>
    ensures members { OnOk result (AreMembers G.group G.vocabulary (members_of nodes.old)) }
    ensures right { OnOk result (AreHistoriesRight (world_of G.group G.vocabulary (members_of nodes.old))) }
    ensures delivered { IfOk result (λ audit. audit.delivered.items ≡ map (λ v. length v.history) (members_of nodes.old)) }
    ensures group { OnOk result (AreNodes G.group nodes.old) }
    ensures not_a_group { IfErr result (λ refusal. (refusal ≡ AuditRefusal.NotAGroup) ↔ (AreNodes G.group nodes.old → ⊥)) }
    ensures unchanged { nodes.new ≡ nodes.old }
{
    if !are_nodes(nodes) {
        return Err(AuditRefusal::NotAGroup);
    }
    compare_all(nodes);
    invariants_of(nodes);
    let Ok(delivered) = delivered(alloc, nodes) else {
        return Err(AuditRefusal::NoMemory);
    };
    Ok(Audit { delivered })
}
