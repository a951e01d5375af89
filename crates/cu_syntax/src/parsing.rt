//! Parsing of modules and goals.
ghost use Rattle.std.specs.Prelude.{◌≡◌, ◌<◌, ℕ, Bool, [], false, true, IfErr, IfNone, IfOk, IfSome, List, length, map, Ok, Err, OnOk};
ghost use Rattle.std.specs.List.{All};
ghost use Rattle.cu_layout.specs.Laws.{AreOf};
ghost use Rattle.cu_lex.specs.Reading.{IsTokenOf, lexeme_of};
ghost use Rattle.cu_names.specs.declared.names.NameId.{NameId};
ghost use Rattle.cu_syntax.specs.Answer.{Adds, FoundHeader, FoundPart, IsNoItem, NoHeader, Tells, goal_meaning, item_meaning, items_meaning, module_meaning, part_with, tree_of};
ghost use Rattle.cu_syntax.specs.Owners.{GoalIsOf, HeaderIsOf, ItemIsOf, ModuleIsOf, ParsedIsOf};
ghost use Rattle.cu_syntax.specs.Parsing.{GoalRead, Has, HasNone, ItemRead, ModuleRead, PartRead, PartsRead, part_after_block, parts};
ghost use Rattle.cu_syntax.specs.Table.{number, rows};
ghost use Rattle.cu_syntax.specs.declared.symbol.Symbol.TheVariants as symbol;

use crate::fault::ParseFault;
use crate::rows::{grammar, number};
use crate::scanning::{
    PartEnd, first_line, first_open, is_long, line_through, part_end, tokens_after,
};
use crate::symbol::Symbol;
use crate::text::{GoalText, Header, Item, Module, Parsed};
use cu_lex::Token;
use cu_peg::{Grammar, matches};
use std::alloc::{AllocError, Global};

/// The syntax of a goal, given by its tokens with the braces and semicolons of
/// the layout.
///
/// # Errors
///
/// `TooLong` or else `Syntax`, at the goal's line, and `NoMemory`.
pub fn parse_goal(alloc: Global, tokens: &[Token]) -> Result<GoalText, ParseFault>
    ensures goal { (names : List (List ℕ))
        → IfOk result (λ goal. GoalRead (map (lexeme_of names) tokens.now)
        (Ok (goal_meaning names goal))) }
    ensures fault { (names : List (List ℕ))
        → IfErr result (Tells (λ fault. GoalRead (map (lexeme_of names) tokens.now) (Err fault))) }
    ensures owned { (owner : NameId) (names : List (List ℕ))
        → All (IsTokenOf owner names) tokens.now → IfOk result (GoalIsOf owner names) }
{
    if is_long(tokens) {
        return Err(ParseFault::TooLong(first_line(1, tokens)));
    }
    let grammar = grammar(alloc)?;
    match parse(alloc, &grammar, Symbol::Goal, tokens)? {
        Some(parsed) => Ok(GoalText { parsed }),
        None => Err(ParseFault::Syntax(first_line(1, tokens))),
    }
}

/// The syntax of a module, given by its tokens with the braces and semicolons
/// of the layout.
///
/// # Errors
///
/// `Syntax` at line 1 where the header doesn't match. Else the first item of
/// more than 4,096 tokens, or that doesn't match, and `NoMemory`. An item's
/// length is looked at before it is matched.
pub fn parse_module(alloc: Global, tokens: &[Token]) -> Result<Module, ParseFault>
    ensures syntax { (names : List (List ℕ))
        → IfOk result (λ found. ModuleRead (map (lexeme_of names) tokens.now)
        (Ok (module_meaning names found))) }
    ensures fault { (names : List (List ℕ))
        → IfErr result
        (Tells (λ fault. ModuleRead (map (lexeme_of names) tokens.now) (Err fault))) }
    ensures owned { (owner : NameId) (names : List (List ℕ)) → AreOf owner names tokens.now
        → IfOk result (ModuleIsOf owner names) }
{
    let Some(opening) = first_open(tokens) else {
        return Err(ParseFault::Syntax(1));
    };
    let grammar = grammar(alloc)?;
    let header = read_header(alloc, &grammar, &tokens[..opening])?;
    let last = line_through(1, tokens, opening);
    let items = read_parts(alloc, &grammar, last, tokens_after(tokens, opening))?;
    Ok(Module { header, items })
}

/// The header of a module, if it has one.
fn read_header(
    alloc: Global,
    grammar: &Grammar,
    tokens: &[Token],
) -> Result<Option<Header>, ParseFault>
    requires { grammar.now ≡ rows }
    ensures header { (names : List (List ℕ))
        → IfOk result (FoundHeader names (map (lexeme_of names) tokens.now)) }
    ensures fault { (names : List (List ℕ))
        → IfErr result (Tells (NoHeader (map (lexeme_of names) tokens.now))) }
    ensures owned { (owner : NameId) (names : List (List ℕ))
        → All (IsTokenOf owner names) tokens.now
        → IfOk result (λ found. IfSome found (HeaderIsOf owner names)) }
{
    if tokens.is_empty() {
        return Ok(None);
    }
    match parse(alloc, grammar, Symbol::Header, tokens)? {
        Some(parsed) => Ok(Some(Header { parsed })),
        None => Err(ParseFault::Syntax(1)),
    }
}

/// The items of a module's block, whose brace stands before these tokens. The
/// last token of the text before them stands on the line `last`.
fn read_parts(
    alloc: Global,
    grammar: &Grammar,
    last: u32,
    block: &[Token],
) -> Result<Vec<Item>, ParseFault>
    requires { grammar.now ≡ rows }
    ensures items { (names : List (List ℕ))
        → IfOk result (λ items. PartsRead true (parts last (map (lexeme_of names) block.now))
        (Ok (items_meaning names items.items))) }
    ensures fault { (names : List (List ℕ))
        → IfErr result
        (Tells (λ fault. PartsRead true (parts last (map (lexeme_of names) block.now))
        (Err fault))) }
    ensures owned { (owner : NameId) (names : List (List ℕ)) → All (IsTokenOf owner names) block.now
        → IfOk result (λ found. All (ItemIsOf owner names) found.items) }
{
    let mut items = Vec::new(alloc);
    let mut imports = true;
    let mut last = last;
    let mut left = block;
    'parts: loop {
        match part_end(left) {
            PartEnd::Separator(length) => {
                let found = read_part(alloc, grammar, imports, last, &left[..length])?;
                imports = add_item(&mut items, imports, found)?;
                last = line_through(last, left, length);
                left = tokens_after(left, length);
                continue;
            }
            PartEnd::Close(length) => {
                let found = read_part(alloc, grammar, imports, last, &left[..length])?;
                add_item(&mut items, imports, found)?;
                nothing_after(line_through(last, left, length), tokens_after(left, length))?;
                return Ok(items);
            }
            PartEnd::Missing => return Err(misplaced(last, left)),
        }
    }
}

/// Adds an item, if there is one. Tells whether an import may follow it.
fn add_item(items: &mut Vec<Item>, imports: bool, found: Option<Item>) -> Result<bool, AllocError>
    ensures items { (names : List (List ℕ))
        → IfOk result (Adds names imports items.old.items items.new.items found) }
    ensures owned { (owner : NameId) (names : List (List ℕ))
        → All (ItemIsOf owner names) items.old.items → IfSome found (ItemIsOf owner names)
        → OnOk result (All (ItemIsOf owner names) items.new.items) }
{
    match found {
        None => Ok(imports),
        Some(item) => {
            let imports = imports && item.is_import();
            items.push(item)?;
            Ok(imports)
        }
    }
}

/// Tells a fault, unless no token follows the block.
fn nothing_after(last: u32, tokens: &[Token]) -> Result<(), ParseFault>
    ensures nothing { OnOk result (tokens.now ≡ []) }
    ensures fault { (names : List (List ℕ)) (imports : Bool)
        → IfErr result
        (Tells (λ fault. PartsRead imports
        (part_after_block last (map (lexeme_of names) tokens.now)) (Err fault))) }
{
    if tokens.is_empty() {
        return Ok(());
    }
    Err(misplaced(last, tokens))
}

/// The fault of tokens where no item may stand.
fn misplaced(last: u32, tokens: &[Token]) -> ParseFault
    ensures { (names : List (List ℕ)) (imports : Bool)
        → Tells (λ fault. PartRead imports (part_with false last (map (lexeme_of names) tokens.now))
        (Err fault)) result }
{
    let line = first_line(last, tokens);
    if is_long(tokens) {
        return ParseFault::TooLong(line);
    }
    ParseFault::Syntax(line)
}

/// The item of a part of the block, if it isn't empty.
fn read_part(
    alloc: Global,
    grammar: &Grammar,
    imports: bool,
    last: u32,
    tokens: &[Token],
) -> Result<Option<Item>, ParseFault>
    requires { grammar.now ≡ rows }
    ensures item { (names : List (List ℕ))
        → IfOk result (FoundPart names imports
        (part_with true last (map (lexeme_of names) tokens.now))) }
    ensures fault { (names : List (List ℕ))
        → IfErr result
        (Tells (λ fault. PartRead imports (part_with true last (map (lexeme_of names) tokens.now))
        (Err fault))) }
    ensures owned { (owner : NameId) (names : List (List ℕ))
        → All (IsTokenOf owner names) tokens.now
        → IfOk result (λ found. IfSome found (ItemIsOf owner names)) }
{
    if tokens.is_empty() {
        return Ok(None);
    }
    if is_long(tokens) {
        return Err(ParseFault::TooLong(first_line(last, tokens)));
    }
    match read_item(alloc, grammar, imports, tokens)? {
        Some(item) => Ok(Some(item)),
        None => Err(ParseFault::Syntax(first_line(last, tokens))),
    }
}

/// The item that tokens are, if they are one.
fn read_item(
    alloc: Global,
    grammar: &Grammar,
    imports: bool,
    tokens: &[Token],
) -> Result<Option<Item>, AllocError>
    requires { grammar.now ≡ rows }
    ensures item { (names : List (List ℕ))
        → IfOk result (λ found. IfSome found
        (λ item. ItemRead imports (map (lexeme_of names) tokens.now)
        (item_meaning names item))) }
    ensures none { (names : List (List ℕ))
        → IfOk result (λ found. IfNone found
        (IsNoItem imports (map (lexeme_of names) tokens.now))) }
    ensures owned { (owner : NameId) (names : List (List ℕ))
        → All (IsTokenOf owner names) tokens.now
        → IfOk result (λ found. IfSome found (ItemIsOf owner names)) }
{
    if let Some(parsed) = read_import(alloc, grammar, imports, tokens)? {
        return Ok(Some(Item { parsed }));
    }
    match parse(alloc, grammar, Symbol::Item, tokens)? {
        Some(parsed) => Ok(Some(Item { parsed })),
        None => Ok(None),
    }
}

/// The import that tokens are, if they are one and it may stand there.
fn read_import(
    alloc: Global,
    grammar: &Grammar,
    imports: bool,
    tokens: &[Token],
) -> Result<Option<Parsed>, AllocError>
    requires { grammar.now ≡ rows }
    ensures import { (names : List (List ℕ))
        → IfOk result (λ found. IfSome found (λ import. (imports ≡ true)
        × Has symbol.ImportDecl (map (lexeme_of names) tokens.now) (tree_of names import))) }
    ensures symbol { IfOk result
        (λ found. IfSome found (λ import. import.symbol ≡ symbol.ImportDecl)) }
    ensures none { (names : List (List ℕ))
        → IfOk result (λ found. IfNone found (imports ≡ true
        → HasNone symbol.ImportDecl (map (lexeme_of names) tokens.now))) }
    ensures owned { (owner : NameId) (names : List (List ℕ))
        → All (IsTokenOf owner names) tokens.now
        → IfOk result (λ found. IfSome found (ParsedIsOf owner names)) }
{
    if !imports {
        return Ok(None);
    }
    parse(alloc, grammar, Symbol::ImportDecl, tokens)
}

/// The tree of tokens by a symbol of the grammar, with a copy of them, if they
/// have one.
fn parse(
    alloc: Global,
    grammar: &Grammar,
    symbol: Symbol,
    tokens: &[Token],
) -> Result<Option<Parsed>, AllocError>
    requires rows { grammar.now ≡ rows }
    requires row { number symbol < length rows }
    ensures tree { (names : List (List ℕ))
        → IfOk result (λ found. IfSome found
        (λ parsed. Has symbol (map (lexeme_of names) tokens.now) (tree_of names parsed))) }
    ensures symbol { IfOk result (λ found. IfSome found (λ parsed. parsed.symbol ≡ symbol)) }
    ensures none { (names : List (List ℕ))
        → IfOk result (λ found. IfNone found (HasNone symbol (map (lexeme_of names) tokens.now))) }
    ensures owned { (owner : NameId) (names : List (List ℕ))
        → All (IsTokenOf owner names) tokens.now
        → IfOk result (λ found. IfSome found (ParsedIsOf owner names)) }
{
    let Some(tree) = matches(alloc, grammar, number(symbol), tokens)? else {
        return Ok(None);
    };
    let tokens = copy(alloc, tokens)?;
    Ok(Some(Parsed {
        symbol,
        tokens,
        tree,
    }))
}

fn copy(alloc: Global, tokens: &[Token]) -> Result<Vec<Token>, AllocError>
    ensures { IfOk result (λ copy. copy.items ≡ tokens.now) }
{
    let mut copy = Vec::with_capacity(alloc, tokens.len())?;
    for token in tokens {
        copy.push(token.copy(alloc)?)?;
    }
    Ok(copy)
}
