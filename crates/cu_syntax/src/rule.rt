//! Rules of the grammar.
use crate::symbol::Symbol;
use cu_peg::Class;

/// What a symbol of the grammar stands for: a token, or an expression over
/// symbols.
#[derive(Clone, Copy)]
pub(crate) enum Rule {
    Token(Class),
    Sequence(&'static [Symbol]),
    Choice(&'static [Symbol]),
    Optional(Symbol),
    Many(Symbol),
    AtLeastOne(Symbol),
    SeparatedBy(Symbol, Symbol),
    Ahead(Symbol),
    NotAhead(Symbol),
}
