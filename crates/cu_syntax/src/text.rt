//! Modules and goals with the trees of their tokens.
ghost use Rattle.std.specs.Prelude.{◌≡◌, ℕ, List, map, true};
ghost use Rattle.cu_lex.specs.Reading.{lexeme_of};
ghost use Rattle.cu_syntax.specs.Inside.Fits.{fits};
ghost use Rattle.cu_syntax.specs.ItemSymbols.{is_item};
ghost use Rattle.cu_syntax.specs.Subtrees.{over};
ghost use Rattle.cu_syntax.specs.declared.symbol.Symbol.TheVariants as symbol;

use crate::subtree::Subtree;
use crate::symbol::Symbol;
use cu_lex::Token;
use cu_peg::Tree;
use std::fmt;

/// Tokens, and the tree that the grammar gives of them.
#[derive(Drop)]
pub(crate) struct Parsed {
    pub(crate) symbol: Symbol,
    pub(crate) tokens: Vec<Token>,
    pub(crate) tree: Tree,
    ghost fits: { (names : List (List ℕ))
        → fits symbol (over (map (lexeme_of names) tokens.items) tree) ≡ true },
}

/// A text is shown by its tokens. Symbols have no names outside of this crate.
impl fmt::Debug for Parsed {
    fn fmt<W: fmt::Write>(&self, f: &mut fmt::Formatter<W>) -> fmt::Result {
        f.debug_struct("Parsed")
            .field("tokens", &self.tokens)
            .finish_non_exhaustive()
    }
}

impl Parsed {
    ghost use Rattle.std.specs.Prelude.{◌≡◌, ℕ, List};
    ghost use Rattle.cu_names.specs.declared.names.NameId.{NameId};
    ghost use Rattle.cu_syntax.specs.Answer.{tree_of};
    ghost use Rattle.cu_syntax.specs.Owners.{IsOf, ParsedIsOf};
    ghost use Rattle.cu_syntax.specs.SubtreeMeaning as part;

    /// The whole tree.
    pub(crate) fn root(&self) -> Subtree<'_>
        ensures symbol { result.symbol ≡ self.now.symbol }
        ensures tree { (names : List (List ℕ)) → part.tree_of names result
            ≡ tree_of names self.now }
        ensures owned { (owner : NameId) (names : List (List ℕ)) → ParsedIsOf owner names self.now
            → IsOf owner names result }
    {
        Subtree {
            symbol: self.symbol,
            tokens: self.tokens.as_slice(),
            nodes: self.tree.nodes(),
        }
    }
}

/// The header of a module.
#[derive(Debug, Drop)]
pub struct Header {
    pub(crate) parsed: Parsed,
    ghost symbol: { parsed.symbol ≡ symbol.Header },
}

/// An item of a module: an import or another one.
#[derive(Debug, Drop)]
pub struct Item {
    pub(crate) parsed: Parsed,
    ghost symbol: { is_item parsed.symbol ≡ true },
}

impl Item {
    ghost use Rattle.std.specs.Prelude.{◌≡◌};
    ghost use Rattle.cu_syntax.specs.ItemSymbols.{is_import};

    pub(crate) fn is_import(&self) -> bool
        ensures { result ≡ is_import self.now.parsed.symbol }
    {
        matches!(self.parsed.symbol, Symbol::ImportDecl)
    }
}

/// The syntax of a module.
#[derive(Debug, Drop)]
pub struct Module {
    pub(crate) header: Option<Header>,
    pub(crate) items: Vec<Item>,
}

/// The syntax of a goal.
#[derive(Debug, Drop)]
pub struct GoalText {
    pub(crate) parsed: Parsed,
    ghost symbol: { parsed.symbol ≡ symbol.Goal },
}
