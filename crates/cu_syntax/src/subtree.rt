//! Parts of the trees that the grammar gives.
ghost use Rattle.std.specs.Prelude.{◌≡◌, ℕ, List, [], map, true};
ghost use Rattle.std.specs.Option.{option_copied};
ghost use Rattle.cu_lex.specs.Reading.{lexeme_of};
ghost use Rattle.cu_peg.specs.Parse.{spelled, spelled_all};
ghost use Rattle.cu_peg.specs.Spelling.{first_of, read, read_all};
ghost use Rattle.cu_syntax.specs.Inside.Fits.{fits};
ghost use Rattle.cu_syntax.specs.Subtrees.{is_choice, others_of, over, token_at};
ghost use Rattle.cu_syntax.specs.Table.{Choice, rule_of};

use crate::rule::Rule;
use crate::rules::rule;
use crate::symbol::Symbol;
use cu_lex::Token;
use cu_peg::{Form, Node};
use std::alloc::{AllocError, Global};
use std::fmt;

/// A tree of a symbol of the grammar, over tokens.
#[derive(Clone, Copy)]
pub(crate) struct Subtree<'t> {
    pub(crate) symbol: Symbol,
    pub(crate) tokens: &'t [Token],
    /// The nodes of the tree, in prefix order.
    pub(crate) nodes: &'t [Node],
    ghost spelled: { spelled (read nodes.now) ≡ nodes.now },
    ghost fits: { (names : List (List ℕ))
        → fits symbol (over (map (lexeme_of names) tokens.now) (read nodes.now)) ≡ true },
}

/// A tree is shown by its tokens. Symbols have no names outside of this crate.
impl fmt::Debug for Subtree<'_> {
    fn fmt<W: fmt::Write>(&self, f: &mut fmt::Formatter<W>) -> fmt::Result {
        f.debug_struct("Subtree")
            .field("tokens", &self.tokens)
            .finish_non_exhaustive()
    }
}

impl<'t> Subtree<'t> {
    ghost use Rattle.std.specs.Prelude.{◌≡◌, ◌<◌, ℕ, List, [], ◌∷◌, Option, None, Some, IfNone, IfOk, IfSome, false, length, map, slice_get, true};
    ghost use Rattle.std.specs.List.{All};
    ghost use Rattle.cu_lex.specs.Reading.{IsTokenOf, lexeme_of};
    ghost use Rattle.cu_names.specs.declared.names.NameId.{NameId};
    ghost use Rattle.cu_peg.specs.Parse.{Chosen, Leaf, NoTree, Parts, only, spelled_all};
    ghost use Rattle.cu_peg.specs.Spelling.{read};
    ghost use Rattle.cu_syntax.specs.Owners.{IsOf};
    ghost use Rattle.cu_syntax.specs.Reading.{count_in, first_token};
    ghost use Rattle.cu_syntax.specs.Subtrees.{Takes, has_token, inner_of, is_choice, is_empty, is_leaf, is_repeated, is_single, optional_part, part_of, parts_in, repeated_part, sequence, trees_from};
    ghost use Rattle.cu_syntax.specs.Table.{rule_of};
    ghost use Rattle.cu_syntax.specs.SubtreeMeaning.{tree_of};

    /// The token of a leaf.
    pub(crate) fn token(self) -> &'t Token
        requires { is_leaf (rule_of self.symbol) ≡ true }
        ensures token { (names : List (List ℕ)) → tree_of names self.entry
            ≡ Leaf (lexeme_of names result.now) }
        ensures owned { (owner : NameId) (names : List (List ℕ)) → IsOf owner names self.entry
            → IsTokenOf owner names result.now }
    {
        let Some(token) = token_of(self.nodes[0], self.tokens) else {
            unreachable!()
        };
        token
    }

    /// The tree of the alternative that a choice took.
    pub(crate) fn chosen(self) -> Subtree<'t>
        requires { is_choice (rule_of self.symbol) ≡ true }
        ensures tree { (names : List (List ℕ))
            → Takes self.entry.symbol (tree_of names self.entry) result.symbol
            (tree_of names result) }
        ensures smaller { length result.nodes.now < length self.entry.nodes.now }
        ensures owned { (owner : NameId) (names : List (List ℕ)) → IsOf owner names self.entry
            → IsOf owner names result }
    {
        Subtree {
            symbol: alternatives(self.symbol)[self.alternative()],
            tokens: self.tokens,
            nodes: &self.nodes[1..],
        }
    }

    /// The number of the alternative that a choice took.
    fn alternative(self) -> usize
        requires { is_choice (rule_of self.symbol) ≡ true }
        ensures { read self.entry.nodes.now ≡ Chosen result (inner_of (read self.entry.nodes.now)) }
    {
        match self.nodes[0].form {
            Form::Chosen(number) => number,
            _ => unreachable!(),
        }
    }

    /// The nodes of the parts of a tree that is neither a leaf nor a choice.
    fn parts(self) -> &'t [Node]
        requires leaf { is_leaf (rule_of self.symbol) ≡ false }
        requires choice { is_choice (rule_of self.symbol) ≡ false }
        ensures { result.now ≡ spelled_all (parts_in (read self.entry.nodes.now)) }
    {
        &self.nodes[1..]
    }

    /// The tree of a part of a sequence, by its number from 0.
    pub(crate) fn part(self, number: usize, symbol: Symbol) -> Subtree<'t>
        requires { slice_get (sequence (rule_of self.symbol)) number ≡ Some symbol }
        ensures symbol { result.symbol ≡ symbol }
        ensures tree { (names : List (List ℕ)) → tree_of names result
            ≡ part_of (tree_of names self.entry) number }
        ensures smaller { length result.nodes.now < length self.entry.nodes.now }
        ensures owned { (owner : NameId) (names : List (List ℕ)) → IsOf owner names self.entry
            → IsOf owner names result }
    {
        let mut left = self.parts();
        for _ in 0..number {
            left = first_tree(left).1;
        }
        Subtree {
            symbol,
            tokens: self.tokens,
            nodes: first_tree(left).0,
        }
    }

    /// The tree of what an optional symbol stands for, if it is there.
    pub(crate) fn optional(self, symbol: Symbol) -> Option<Subtree<'t>>
        requires { optional_part (rule_of self.symbol) ≡ Some symbol }
        ensures symbol { IfSome result (λ part. part.symbol ≡ symbol) }
        ensures tree { (names : List (List ℕ))
            → IfSome result (λ part. tree_of names self.entry ≡ Parts (only (tree_of names part))) }
        ensures none { (names : List (List ℕ))
            → IfNone result (tree_of names self.entry ≡ Parts NoTree) }
        ensures smaller { IfSome result (λ part. length part.nodes.now
            < length self.entry.nodes.now) }
        ensures owned { (owner : NameId) (names : List (List ℕ)) → IsOf owner names self.entry
            → IfSome result (IsOf owner names) }
    {
        let nodes = self.parts();
        if nodes.is_empty() {
            return None;
        }
        Some(Subtree {
            symbol,
            tokens: self.tokens,
            nodes,
        })
    }

    /// The tree of a repeated symbol, where it stands once alone.
    pub(crate) fn single(self, symbol: Symbol) -> Option<Subtree<'t>>
        requires { repeated_part (rule_of self.symbol) ≡ Some symbol }
        ensures symbol { IfSome result (λ part. part.symbol ≡ symbol) }
        ensures tree { (names : List (List ℕ))
            → IfSome result (λ part. tree_of names self.entry ≡ Parts (only (tree_of names part))) }
        ensures none { (names : List (List ℕ))
            → IfNone result (is_single (tree_of names self.entry) ≡ false) }
        ensures smaller { IfSome result (λ part. length part.nodes.now
            < length self.entry.nodes.now) }
        ensures owned { (owner : NameId) (names : List (List ℕ)) → IsOf owner names self.entry
            → IfSome result (IsOf owner names) }
    {
        let nodes = self.parts();
        if nodes.is_empty() {
            return None;
        }
        let others = first_tree(nodes).1;
        if !others.is_empty() {
            return None;
        }
        Some(Subtree {
            symbol,
            tokens: self.tokens,
            nodes,
        })
    }

    /// Whether a repeated symbol stands nowhere in the tree.
    pub(crate) fn is_empty(self) -> bool
        requires { is_repeated (rule_of self.symbol) ≡ true }
        ensures { (names : List (List ℕ)) → result ≡ is_empty (tree_of names self.entry) }
    {
        self.parts().is_empty()
    }

    /// How often a repeated symbol stands in the tree.
    pub(crate) fn count(self) -> usize
        requires { is_repeated (rule_of self.symbol) ≡ true }
        ensures count { (names : List (List ℕ)) → result ≡ count_in (tree_of names self.entry) }
        ensures small { result < length self.entry.nodes.now }
    {
        let mut count = 0;
        let mut left = self.parts();
        while !left.is_empty() {
            left = first_tree(left).1;
            count += 1;
        }
        count
    }

    /// The trees of a repeated symbol.
    pub(crate) fn repeated(
        self,
        alloc: Global,
        symbol: Symbol,
    ) -> Result<Vec<Subtree<'t>>, AllocError>
        requires { repeated_part (rule_of self.symbol) ≡ Some symbol }
        ensures symbol { IfOk result (λ parts. All (λ part. part.symbol ≡ symbol) parts.items) }
        ensures trees { (names : List (List ℕ))
            → IfOk result (λ parts. tree_of names self.entry
            ≡ Parts (trees_from (map (tree_of names) parts.items))) }
        ensures owned { (owner : NameId) (names : List (List ℕ)) → IsOf owner names self.entry
            → IfOk result (λ found. All (IsOf owner names) found.items) }
    {
        let mut parts = Vec::new(alloc);
        let mut left = self.parts();
        while !left.is_empty() {
            let (nodes, others) = first_tree(left);
            parts.push(Subtree {
                symbol,
                tokens: self.tokens,
                nodes,
            })?;
            left = others;
        }
        Ok(parts)
    }

    /// The first token, where the symbol's trees have one.
    pub(crate) fn first_token(self) -> &'t Token
        requires { has_token self.symbol ≡ true }
        ensures token { (names : List (List ℕ)) → first_token (tree_of names self.entry)
            ≡ Some (lexeme_of names result.now) }
        ensures owned { (owner : NameId) (names : List (List ℕ)) → IsOf owner names self.entry
            → IsTokenOf owner names result.now }
    {
        for node in self.nodes {
            if let Some(token) = token_of(*node, self.tokens) {
                return token;
            }
        }
        unreachable!()
    }
}

/// The alternatives of a choice.
fn alternatives(symbol: Symbol) -> &'static [Symbol]
    requires { is_choice (rule_of symbol) ≡ true }
    ensures { rule_of symbol ≡ Choice result.now }
{
    match rule(symbol) {
        Rule::Choice(alternatives) => alternatives,
        _ => unreachable!(),
    }
}

/// The nodes of the first of some trees, and those of the others.
fn first_tree(nodes: &[Node]) -> (&[Node], &[Node])
    requires some { ¬ (nodes.now ≡ []) }
    requires trees { spelled_all (read_all nodes.now) ≡ nodes.now }
    ensures first { result.0.now ≡ spelled (first_of (read_all nodes.now)) }
    ensures others { result.1.now ≡ spelled_all (others_of (read_all nodes.now)) }
{
    let first = nodes[0];
    nodes.split_at(first.size)
}

/// The token of a leaf, if the node is one.
fn token_of(node: Node, tokens: &[Token]) -> Option<&Token>
    ensures { option_copied result ≡ token_at tokens.now node.form }
{
    match node.form {
        Form::Leaf(number) => tokens.get(number),
        _ => None,
    }
}
