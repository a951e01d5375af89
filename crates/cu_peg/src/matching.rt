//! Matching of tokens by a grammar.
ghost use Rattle.std.specs.Prelude.{◌≡◌, ◌<◌, ℕ, List, length, map, IfNone, IfOk, IfSome};
ghost use Rattle.cu_lex.specs.Reading.{lexeme_of};
ghost use Rattle.cu_peg.specs.Result.{HasNoTree, IsTreeOf};

use crate::reached::reached_rows;
use crate::reading::FilledTable;
use crate::{Grammar, Tree};
use cu_lex::Token;
use std::alloc::{AllocError, Global};

/// The tree that a row of a grammar gives of a whole list of tokens, if it has
/// one. Time grows with the number of rows times the number of tokens, and
/// memory with how many of the rows that it reaches match at each token, and
/// with the size of the tree.
///
/// # Errors
///
/// An allocation failure; also where the tree has more nodes than memory has
/// room for.
pub fn matches(
    alloc: Global,
    grammar: &Grammar,
    start: u32,
    tokens: &[Token],
) -> Result<Option<Tree>, AllocError>
    requires { start < length grammar.now }
    ensures tree { (names : List (List ℕ))
        → IfOk result (λ found. IfSome found
        (IsTreeOf grammar.now start (map (lexeme_of names) tokens.now))) }
    ensures none { (names : List (List ℕ))
        → IfOk result (λ found. IfNone found
        (HasNoTree grammar.now start (map (lexeme_of names) tokens.now))) }
{
    let start = start as usize;
    let rows = grammar.rows();
    let marks = reached_rows(alloc, rows, start)?;
    let table = grammar.ends(alloc, marks.as_slice(), tokens)?;
    let Some(end) = table.end(start, tokens.len()) else {
        return Ok(None);
    };
    if end.left > 0 {
        return Ok(None);
    }
    if end.nodes == usize::MAX {
        return Err(AllocError);
    }
    let filled = FilledTable {
        rows,
        table: &table,
        tokens,
    };
    let nodes = filled.read(alloc, start, end)?;
    Ok(Some(Tree::new(nodes)))
}
