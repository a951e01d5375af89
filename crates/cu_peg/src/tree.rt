//! Trees of texts.
ghost use Rattle.std.specs.Prelude.{◌≡◌};
ghost use Rattle.cu_peg.specs.Parse.{spelled};
ghost use Rattle.cu_peg.specs.Spelling.{read};

use crate::Node;
use std::marker::Model;

/// The tree that a grammar gives of a list of tokens. Contracts see it as a
/// tree whose leaves are the numbers of the tokens.
#[derive(Debug, Drop)]
pub struct Tree {
    nodes: Vec<Node>,
}

impl Model for Tree {
    ghost use Rattle.std.specs.Prelude.{◌≡◌, ℕ};
    ghost use Rattle.cu_peg.specs.Parse.{ParseTree};

    ghost Value = { ParseTree ℕ };

    ghost use Rattle.cu_peg.specs.Spelling.{tree_code};

    ghost coded = { tree_code };

    ghost use Rattle.cu_peg.specs.Parse.{spelled};
    ghost use Rattle.cu_peg.specs.Spelling.{read};

    ghost view = { λ tree. read tree.nodes.items };

    ghost invariant = { λ tree. spelled (read tree.nodes.items) ≡ tree.nodes.items };
}

impl Tree {
    /// The tree that these nodes spell.
    pub fn new(nodes: Vec<Node>) -> Tree
        requires { spelled (read nodes.items) ≡ nodes.items }
        ensures { result ≡ read nodes.items }
    {
        Tree { nodes }
    }

    /// The nodes in prefix order.
    pub fn nodes(&self) -> &[Node]
        ensures { result.now ≡ spelled self.now }
    {
        self.nodes.as_slice()
    }
}
