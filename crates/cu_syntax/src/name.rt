//! Names and literals.
ghost use Rattle.std.specs.Int.{IsNonNegative};
ghost use Rattle.std.specs.Prelude.{◌≡◌, ◌<◌, ℕ, List, false, length, true};
ghost use Rattle.cu_lex.specs.Reading.{HasKind, HasName, IsTokenOf, kind_of, lexeme_of, position_of, spelling_of};
ghost use Rattle.cu_names.specs.declared.names.NameId.{NameId};
ghost use Rattle.cu_syntax.specs.Forms.{is_name};
ghost use Rattle.cu_syntax.specs.Inside.NameTokens.{has_name, is_spelled};
ghost use Rattle.cu_syntax.specs.Names.{literal_meaning, module_name_meaning, name_meaning};
ghost use Rattle.cu_syntax.specs.Owners.{IsOf, LiteralIsNatural, ModuleNameIsOf, NameIsOf, PlaceIsOf};
ghost use Rattle.cu_syntax.specs.Reading.{digit_of, literal_of, module_name, name_of, name_token, place, spelling};
ghost use Rattle.cu_syntax.specs.SubtreeMeaning.{tree_of};
ghost use Rattle.cu_syntax.specs.Subtrees.{has_token, is_leaf};
ghost use Rattle.cu_syntax.specs.Syntax as syntax;
ghost use Rattle.cu_syntax.specs.Table.{rule_of};
ghost use Rattle.cu_syntax.specs.declared.symbol.Symbol.TheVariants as symbol;

use crate::rule::Rule;
use crate::rules::rule;
use crate::subtree::Subtree;
use crate::symbol::Symbol;
use cu_int::Int;
use cu_lex::{Characters, Name as Spelling, Token, TokenKind};
use cu_names::{NameId, Place};

/// A name or an operator where it stands.
#[derive(Clone, Copy, Debug, PartialEq, Eq)]
pub struct Name {
    /// The whole text of the name: `Data.List.map`.
    pub text: NameId,
    /// The qualifier of the name, if it has one: `Data.List`.
    pub qualifier: Option<NameId>,
    /// The text without the qualifier: `map`.
    pub base: NameId,
    /// The place of the name's token, inside the parentheses or backquotes
    /// round it.
    pub place: Place,
}

/// The name of a module, with its dots.
#[derive(Clone, Copy, Debug, PartialEq, Eq)]
pub struct ModuleName {
    pub text: NameId,
    pub place: Place,
}

#[derive(Clone, Copy, Debug)]
pub enum Literal<'t> {
    Int(Int),
    Char(char),
    String(&'t Characters),
}

impl<'t> Subtree<'t> {
    /// The place of the first token.
    pub(crate) fn place(self) -> Place
        requires { has_token self.symbol ≡ true }
        ensures position { (names : List (List ℕ))
            → position_of result ≡ place (tree_of names self.entry) }
        ensures owned { (owner : NameId) (names : List (List ℕ)) → IsOf owner names self.entry
            → PlaceIsOf owner result }
    {
        self.first_token().place
    }

    /// The name that a tree is.
    pub(crate) fn name(self) -> Name
        requires { is_name self.symbol ≡ true }
        ensures meaning { (names : List (List ℕ))
            → name_meaning names result ≡ name_of (tree_of names self.entry) }
        ensures owned { (owner : NameId) (names : List (List ℕ)) → IsOf owner names self.entry
            → NameIsOf owner names result }
    {
        let token = self.name_token();
        let name = spelling(&token.kind);
        Name {
            text: name.text,
            qualifier: name.qualifier,
            base: name.base,
            place: token.place,
        }
    }

    pub(crate) fn module_name(self) -> ModuleName
        requires { self.symbol ≡ symbol.ModuleName }
        ensures meaning { (names : List (List ℕ))
            → module_name_meaning names result ≡ module_name (tree_of names self.entry) }
        ensures owned { (owner : NameId) (names : List (List ℕ)) → IsOf owner names self.entry
            → ModuleNameIsOf owner names result }
    {
        let token = self.name_token();
        ModuleName {
            text: spelling(&token.kind).text,
            place: token.place,
        }
    }

    pub(crate) fn literal(self) -> Literal<'t>
        requires { self.symbol ≡ symbol.Literal }
        ensures meaning { (names : List (List ℕ))
            → literal_meaning result ≡ literal_of (tree_of names self.entry) }
        ensures natural { (owner : NameId) (names : List (List ℕ)) → IsOf owner names self.entry
            → LiteralIsNatural result }
    {
        match &self.first_token().kind {
            TokenKind::Int(number) => Literal::Int(*number),
            TokenKind::Char(character) => Literal::Char(*character),
            TokenKind::String(characters) => Literal::String(characters),
            _ => unreachable!(),
        }
    }

    pub(crate) fn number(self) -> Int
        requires { self.symbol ≡ symbol.Int }
        ensures meaning { (names : List (List ℕ))
            → literal_of (tree_of names self.entry) ≡ syntax.Int result }
        ensures natural { (owner : NameId) (names : List (List ℕ)) → IsOf owner names self.entry
            → IsNonNegative result }
    {
        match &self.token().kind {
            TokenKind::Int(number) => *number,
            _ => unreachable!(),
        }
    }

    /// The digit that the tree's token is.
    pub(crate) fn digit(self) -> u32
        requires { self.symbol ≡ symbol.Digit }
        ensures { (names : List (List ℕ)) → result ≡ digit_of (tree_of names self.entry) }
    {
        match &self.token().kind {
            TokenKind::Int(number) => *number as u32,
            _ => unreachable!(),
        }
    }

    /// The token of a name, inside the parentheses or backquotes round it.
    fn name_token(self) -> &'t Token
        requires { has_name self.symbol ≡ true }
        ensures token { (names : List (List ℕ)) → name_token (tree_of names self.entry)
            ≡ lexeme_of names result.now }
        ensures kind { is_spelled result.now.kind ≡ true }
        ensures owned { (owner : NameId) (names : List (List ℕ)) → IsOf owner names self.entry
            → IsTokenOf owner names result.now }
    {
        let mut name = self;
        while !is_token(name.symbol) {
            name = name.inside();
        }
        name.token()
    }

    /// The alternative that a name took, or what stands between its
    /// parentheses or backquotes.
    fn inside(self) -> Subtree<'t>
        requires name { has_name self.symbol ≡ true }
        requires leaf { is_leaf (rule_of self.symbol) ≡ false }
        ensures name { has_name result.symbol ≡ true }
        ensures token { (names : List (List ℕ)) → name_token (tree_of names self.entry)
            ≡ name_token (tree_of names result) }
        ensures smaller { length result.nodes.now < length self.entry.nodes.now }
        ensures owned { (owner : NameId) (names : List (List ℕ)) → IsOf owner names self.entry
            → IsOf owner names result }
    {
        match rule(self.symbol) {
            Rule::Choice(_) => self.chosen(),
            Rule::Sequence(parts) => self.part(1, parts[1]),
            _ => unreachable!(),
        }
    }
}

/// Whether a symbol is a token's.
fn is_token(symbol: Symbol) -> bool
    ensures { result ≡ is_leaf (rule_of symbol) }
{
    matches!(rule(symbol), Rule::Token(_))
}

/// The name that a token is.
fn spelling(kind: &TokenKind) -> Spelling
    requires { is_spelled kind.now ≡ true }
    ensures meaning { (names : List (List ℕ)) → spelling_of names result
        ≡ spelling (kind_of names kind.now) }
    ensures owned { (names : List (List ℕ)) → HasKind names kind.now → HasName names result }
{
    match kind {
        TokenKind::VarId(name) => *name,
        TokenKind::ConId(name) => *name,
        TokenKind::VarOp(name) => *name,
        TokenKind::ConOp(name) => *name,
        _ => unreachable!(),
    }
}
