//! The tree of an expression, for proofs alone.

ghost use Rattle.std.specs.Prelude.{◌≡◌};
ghost use Rattle.std.specs.Borrow.{ftrue};
ghost use Rattle.rawk_ere_tree.specs.Tree.{Tree};
ghost use Rattle.rawk_ere_tree.specs.TreeCode.{tree_code};

use crate::node::Node;
use std::marker::Model;

/// The tree of an expression. It takes no memory: only contracts and invariants speak of it. Alone it says nothing; an
/// owner ties it to what it keeps.
#[derive(Drop)]
pub struct ProofTree {
    pub ghost tree: { Tree } by { tree_code },
}

impl Model for ProofTree {
    ghost also_owns = { λ _. ftrue };
}

impl ProofTree {
    ghost use Rattle.rawk_ere_tree.specs.Node.{tree_of};

    /// The tree of the node.
    pub fn of(_node: &Node) -> ProofTree
        ensures { result.tree ≡ tree_of _node.now }
    {
        ProofTree {}
    }
}
