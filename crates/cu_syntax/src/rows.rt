//! The grammar of Curry, made of its rules.
ghost use Rattle.std.specs.Prelude.{◌≡◌, IfOk, map};
ghost use Rattle.cu_syntax.specs.Inside.Meaning.{rule_meaning};
ghost use Rattle.cu_syntax.specs.Table.{number, row_of, rows, rule_of, symbols};

use crate::rule::Rule;
use crate::rules::rule;
use crate::symbol::Symbol;
use cu_peg::{BadGrammar, Grammar, Row, RowNumbers};
use std::alloc::{AllocError, Global};

/// The grammar of modules and goals. Its rows have the numbers of the symbols.
pub fn grammar(alloc: Global) -> Result<Grammar, AllocError>
    ensures { IfOk result (λ grammar. grammar ≡ rows) }
{
    let rows = all_rows(alloc)?;
    match Grammar::new(alloc, rows) {
        Ok(grammar) => Ok(grammar),
        Err(BadGrammar::NoMemory) => Err(AllocError),
        Err(BadGrammar::Row(_)) => unreachable!(),
    }
}

/// The rows of the symbols of the grammar, in the order of their numbers.
fn all_rows(alloc: Global) -> Result<Vec<Row>, AllocError>
    ensures { IfOk result (λ found. found.items ≡ rows) }
{
    rows_of(alloc, symbols())
}

/// The rows of symbols.
fn rows_of(alloc: Global, symbols: &[Symbol]) -> Result<Vec<Row>, AllocError>
    ensures { IfOk result (λ rows. rows.items ≡ map row_of (map rule_of symbols.now)) }
{
    let mut rows = Vec::new(alloc);
    for symbol in symbols {
        rows.push(row(alloc, rule(*symbol))?)?;
    }
    Ok(rows)
}

/// The row of a rule.
fn row(alloc: Global, rule: Rule) -> Result<Row, AllocError>
    ensures { IfOk result (λ row. row ≡ row_of (rule_meaning rule)) }
{
    Ok(match rule {
        Rule::Token(class) => Row::Token(class),
        Rule::Sequence(parts) => Row::Sequence(numbers(alloc, parts)?),
        Rule::Choice(parts) => Row::Choice(numbers(alloc, parts)?),
        Rule::Optional(part) => Row::Optional(number(part)),
        Rule::Many(part) => Row::Many(number(part)),
        Rule::AtLeastOne(part) => Row::AtLeastOne(number(part)),
        Rule::SeparatedBy(part, separator) => Row::SeparatedBy(number(part), number(separator)),
        Rule::Ahead(part) => Row::Ahead(number(part)),
        Rule::NotAhead(part) => Row::NotAhead(number(part)),
    })
}

/// The numbers of the rows of symbols.
fn numbers(alloc: Global, symbols: &[Symbol]) -> Result<RowNumbers, AllocError>
    ensures { IfOk result (λ numbers. numbers ≡ map number symbols.now) }
{
    let mut numbers = Vec::new(alloc);
    for symbol in symbols {
        numbers.push(number(*symbol))?;
    }
    Ok(RowNumbers::new(numbers))
}

/// The number of a symbol's row.
pub(crate) fn number(symbol: Symbol) -> u32
    ensures { result ≡ number symbol }
{
    symbol as u32
}

/// The symbols of the grammar, in the order of their numbers.
fn symbols() -> &'static [Symbol]
    ensures { result.now ≡ symbols }
{
    &SYMBOLS
}

const SYMBOLS: [Symbol; 209] = [
    // Tokens.
    Symbol::VarId,
    Symbol::ConId,
    Symbol::VarSym,
    Symbol::ConSym,
    Symbol::QVarId,
    Symbol::QConId,
    Symbol::QVarSym,
    Symbol::QConSym,
    Symbol::Qualified,
    Symbol::As,
    Symbol::Hiding,
    Symbol::Minus,
    Symbol::Case,
    Symbol::Data,
    Symbol::Else,
    Symbol::Fcase,
    Symbol::Free,
    Symbol::If,
    Symbol::Import,
    Symbol::In,
    Symbol::Infix,
    Symbol::Infixl,
    Symbol::Infixr,
    Symbol::Let,
    Symbol::Module,
    Symbol::Newtype,
    Symbol::Of,
    Symbol::Then,
    Symbol::Type,
    Symbol::Where,
    Symbol::DotDot,
    Symbol::DoubleColon,
    Symbol::Equals,
    Symbol::Backslash,
    Symbol::Bar,
    Symbol::LeftArrow,
    Symbol::RightArrow,
    Symbol::At,
    Symbol::OpenParen,
    Symbol::CloseParen,
    Symbol::OpenSquare,
    Symbol::CloseSquare,
    Symbol::OpenBrace,
    Symbol::CloseBrace,
    Symbol::Comma,
    Symbol::Semicolon,
    Symbol::Backquote,
    Symbol::Underscore,
    Symbol::Int,
    Symbol::Digit,
    Symbol::Char,
    Symbol::String,

    // Names and operators.
    Symbol::VarOp,
    Symbol::QuotedVar,
    Symbol::ConOp,
    Symbol::QuotedCon,
    Symbol::QVarOp,
    Symbol::QuotedQVar,
    Symbol::QConOp,
    Symbol::QuotedQCon,
    Symbol::Op,
    Symbol::QOp,
    Symbol::Var,
    Symbol::ParenthesizedVarOp,
    Symbol::Con,
    Symbol::ParenthesizedConOp,
    Symbol::QVar,
    Symbol::ParenthesizedQVarOp,
    Symbol::QCon,
    Symbol::ParenthesizedQConOp,
    Symbol::Literal,

    // Headers and imports.
    Symbol::Header,
    Symbol::ModuleName,
    Symbol::OptionalExports,
    Symbol::Exports,
    Symbol::OptionalExportList,
    Symbol::ExportList,
    Symbol::Export,
    Symbol::ModuleExport,
    Symbol::Entity,
    Symbol::TypeEntity,
    Symbol::OptionalConstructors,
    Symbol::Constructors,
    Symbol::ConstructorNames,
    Symbol::OptionalConstructorList,
    Symbol::ConstructorList,
    Symbol::ImportDecl,
    Symbol::OptionalQualified,
    Symbol::OptionalAlias,
    Symbol::Alias,
    Symbol::OptionalImports,
    Symbol::Imports,
    Symbol::OptionalHiding,
    Symbol::OptionalEntityList,
    Symbol::EntityList,

    // Declarations of a module.
    Symbol::Item,
    Symbol::FixityDecl,
    Symbol::FixityWord,
    Symbol::OptionalDigit,
    Symbol::OpList,
    Symbol::DataDecl,
    Symbol::DataWord,
    Symbol::TypeVars,
    Symbol::OptionalConDecls,
    Symbol::ConDecls,
    Symbol::ConDeclList,
    Symbol::ConDecl,
    Symbol::InfixConDecl,
    Symbol::PrefixConDecl,
    Symbol::ATypes,
    Symbol::SynonymDecl,
    Symbol::Signature,
    Symbol::VarList,

    // Types.
    Symbol::TypeExp,
    Symbol::BType,
    Symbol::TypeApplication,
    Symbol::TypeArguments,
    Symbol::AType,
    Symbol::Unit,
    Symbol::TupleType,
    Symbol::TypeList,
    Symbol::ListType,
    Symbol::NoSixteenTypes,
    Symbol::SixteenTypes,

    // Rules and blocks.
    Symbol::TopRule,
    Symbol::Rule,
    Symbol::FunctionLhs,
    Symbol::Lhs,
    Symbol::InfixLhs,
    Symbol::ParenthesizedLhs,
    Symbol::PrefixLhs,
    Symbol::APats,
    Symbol::RhsAhead,
    Symbol::RhsStart,
    Symbol::PatternLhs,
    Symbol::EqualsAhead,
    Symbol::Rhs,
    Symbol::RhsBody,
    Symbol::PlainRhs,
    Symbol::GuardedRhs,
    Symbol::GuardedExp,
    Symbol::OptionalWhere,
    Symbol::WhereBlock,
    Symbol::Block,
    Symbol::DeclList,
    Symbol::OptionalDecl,
    Symbol::Decl,
    Symbol::FreeDecl,
    Symbol::VarIdList,

    // Expressions.
    Symbol::Exp,
    Symbol::OptionalMinus,
    Symbol::FurtherOperands,
    Symbol::FurtherOperand,
    Symbol::Operand,
    Symbol::Lambda,
    Symbol::LetExp,
    Symbol::IfExp,
    Symbol::CaseExp,
    Symbol::CaseWord,
    Symbol::AltList,
    Symbol::OptionalAlt,
    Symbol::Application,
    Symbol::Alt,
    Symbol::AltBody,
    Symbol::PlainAlt,
    Symbol::GuardedAlts,
    Symbol::GuardedAlt,
    Symbol::Atom,
    Symbol::TupleCon,
    Symbol::Commas,
    Symbol::NoFifteenCommas,
    Symbol::FifteenCommas,
    Symbol::RightSection,
    Symbol::NoMinus,
    Symbol::LeftSection,
    Symbol::Tuple,
    Symbol::ExpList,
    Symbol::NoSixteenExps,
    Symbol::SixteenExps,
    Symbol::EmptyList,
    Symbol::FromThen,
    Symbol::From,
    Symbol::OptionalExp,
    Symbol::Comprehension,
    Symbol::QualList,
    Symbol::ListExp,
    Symbol::Qual,
    Symbol::Generator,
    Symbol::LetQual,
    Symbol::NoIn,

    // Patterns.
    Symbol::Pat,
    Symbol::FurtherConPats,
    Symbol::FurtherConPat,
    Symbol::ConPat,
    Symbol::NegativePat,
    Symbol::ConApplication,
    Symbol::PatArguments,
    Symbol::APat,
    Symbol::AliasPat,
    Symbol::TuplePat,
    Symbol::PatList,
    Symbol::NoSixteenPats,
    Symbol::SixteenPats,
    Symbol::ListPat,
    Symbol::OptionalPatList,

    // Goals.
    Symbol::Goal,
    Symbol::OptionalGoalWhere,
    Symbol::GoalWhere,
    Symbol::FreeDeclList,
];
