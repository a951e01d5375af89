//! Nodes of trees.

/// What a node of a tree is.
#[derive(Clone, Copy, Debug, PartialEq, Eq)]
pub enum Form {
    /// A token, by its number in the list of tokens, from 0.
    Leaf(usize),
    /// The parts of a sequence, or what is optional, repeated or separated.
    /// Looking ahead has none.
    Parts,
    /// One of the alternatives of a choice, by its number from 0. The tree of
    /// the alternative follows.
    Chosen(usize),
}

/// A node of a tree in prefix order: its first part, if it has one, is the
/// next node, and the part after a part begins where that one ends.
#[derive(Clone, Copy, Debug, PartialEq, Eq)]
pub struct Node {
    pub form: Form,
    /// How many nodes the tree has that begins here, this one among them.
    pub size: usize,
}
