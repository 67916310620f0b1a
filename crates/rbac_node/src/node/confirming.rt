//! What a node says of a pass, and of another node.
ghost use Rattle.std.specs.Prelude.{◌≡◌, ◌≢◌, ◌≤◌, ◌&&◌, ◌==◌, nat_le, true, length, max, OnOk, OnErr};
ghost use Rattle.rbac_words.specs.World.{read_of};
ghost use Rattle.rbac_words.specs.Keeping.Member.{IsNumber, node_of};
ghost use Rattle.rbac_words.specs.Keeping.Members.{HasRead};
ghost use Rattle.rbac_words.specs.Play.{IsPrefixOf};
ghost use Rattle.rbac_board.specs.Known.{Agree, IsOf};
ghost use Rattle.rbac_node.specs.Cells.{history_cells};

use crate::group_name::GroupName;
use crate::node::Node;
use crate::pass::Pass;
use rbac_board::Mark;
use rbac_words::Record;
use std::alloc::AllocError;

impl<G: GroupName> Node<G> {
    ghost use Rattle.rbac_node.specs.Node.{is_within};

    /// Whether the pass is of this member, and its front is no longer than what this node published of its history; then the
    /// front is the beginning of that history.
    pub fn confirms(&mut self, pass: &mut Pass<G>) -> bool
        ensures exact { result ≡ ((pass.old.member == self.old.member.number) && nat_le (length pass.old.front) (length self.old.history)) }
        ensures begins { result ≡ true → IsPrefixOf pass.old.front self.old.member.history }
        ensures unchanged { self.new ≡ self.old }
        ensures pass_unchanged { pass.new ≡ pass.old }
    {
        if pass.member != self.member.number() || self.history.len() < pass.front.len() {
            return false;
        }
        pass.front.agree(&mut self.history);
        true
    }

    // Lets a front of its member's history row know so many of the records that it published. Where the front knows as many,
    // nothing changes.
    pub(crate) fn show(&mut self, front: &mut Mark<Record>, count: usize) -> Result<(), AllocError>
        requires of { IsOf (history_cells G.cells self.old.member.number) front.old }
        requires published { count ≤ length self.old.history }
        ensures of { IsOf (history_cells G.cells self.old.member.number) front.new }
        ensures begins { IsPrefixOf front.old.values front.new.values }
        ensures long { OnOk result (length front.new.values ≡ max (length front.old.values) count) }
        ensures agree { Agree front.new.values self.old.history }
        ensures front_unchanged { OnErr result (front.new ≡ front.old) }
        ensures unchanged { self.new ≡ self.old }
    {
        front.learn(&mut self.history, count)
    }

    // Whether its member has read no more of another one than that one's node has published.
    pub(crate) fn is_within(&self, other: &Node<G>) -> bool
        requires { IsNumber self.now.member.group other.now.member.number }
        ensures { result ≡ is_within self.now other.now }
    {
        let at = other.member.number();
        at == self.member.number() || self.member.read(at) as usize <= other.sent.len()
    }

    // What its member took of another one is the beginning of what that one sent.
    pub(crate) fn agrees_with(&mut self, other: &mut Node<G>)
        requires apart { other.old.member.number ≢ self.old.member.number }
        requires within { read_of (node_of self.old.member) other.old.member.number ≤ length other.old.sent }
        ensures read { HasRead self.old.member other.old.member }
        ensures unchanged { self.new ≡ self.old }
        ensures other_unchanged { other.new ≡ other.old }
    {
        self.member.invariants();
        other.member.invariants();
        let at = other.member.number() as usize - 1;
        self.reads[at].agree(&mut other.sent);
    }
}
