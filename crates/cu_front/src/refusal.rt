//! Why modules or a goal are refused.
ghost use Rattle.std.specs.Prelude.{◌≡◌, IfOk};
ghost use Rattle.std.specs.List.{All};
ghost use Rattle.std.specs.String.{string_bytes};
ghost use Rattle.cu_front.specs.RefusalLine as lines;
ghost use Rattle.cu_front.specs.RefusalLine.{cycle_line, refusal_line};
ghost use Rattle.cu_front.specs.RefusalMeaning.{
  FunctionIsKnown,
  PlaceIsKnown,
  RefusalIsKnown,
  function_named,
  refusal_meaning,
};
ghost use Rattle.cu_lex.specs.Reading.{position_of};
ghost use Rattle.cu_lex.specs.Tokens as tokens;
ghost use Rattle.cu_modules.specs.Ordering.{texts_of};
ghost use Rattle.cu_names.specs.Texts.{IsKnown, text_of};

use cu_names::{NameId, Names, Place};
use std::alloc::{AllocError, Global};

/// Why modules or a goal are refused: the first refusal, by the order of the
/// stages. Places are those of tokens.
#[derive(Debug, Drop)]
pub enum Refusal {
    /// A text is no UTF-8: its module, and the offset of the first byte that is
    /// wrong, or the length of a text that ends inside a character.
    NotUtf8(NameId, usize),
    BadToken(Place),
    LiteralRange(Place),
    /// A text of more than 16,777,216 bytes, by its module.
    SourceTooBig(NameId),
    /// An item that has no tree, by its module and its line.
    Syntax(NameId, u32),
    FixityClash(Place),
    MissingModule(NameId),
    /// A cycle of imports, by the names of its modules, from the one that was
    /// met again.
    ImportCycle(Vec<NameId>),
    HeaderName(NameId),
    NotExported(Place, NameId),
    UnknownName(Place, NameId),
    Ambiguous(Place, NameId),
    Duplicate(Place, NameId),
    Arity(Place),
    NonLinear(Place),
    RecursiveLocal(Place),
    SetName(Place),
    /// A recursion through set functions: the first function that stands on
    /// one, after its module where it isn't the goal's.
    SetRecursion(Option<NameId>, NameId),
    /// The first function of the first dependency group that can't be typed,
    /// after its module where it isn't the goal's. The group's equations have
    /// no solution.
    TypeClash(Option<NameId>, NameId),
    /// The first function of the first dependency group that can't be typed,
    /// after its module where it isn't the goal's. The group's equations have
    /// solutions, but none that keeps to the declared types.
    Signature(Option<NameId>, NameId),
    /// A type's name with a wrong number of arguments.
    TypeArity(Place),
    /// The synonym of this name leads to itself.
    SynonymCycle(NameId),
    /// The type of the goal, or of a variable of it, holds functions.
    GoalFunctional,
    TooManyModules(NameId),
    TooDeep(Place),
    /// An item of too many tokens, or a rule too many, by its module and its
    /// line.
    TooLong(NameId, u32),
    /// The first function whose definitional tree is too big, after its module
    /// where it isn't the goal's.
    TreeTooBig(Option<NameId>, NameId),
}

impl Refusal {
    /// The line of the refusal, `refused NUMBER NAME DETAIL`.
    ///
    /// # Errors
    ///
    /// An allocation failure.
    pub fn line(&self, alloc: Global, names: &Names) -> Result<String, AllocError>
        requires known { RefusalIsKnown names.now self.now }
        ensures line { IfOk result (λ line.
            string_bytes line ≡ refusal_line (refusal_meaning names.now self.now)) }
    {
        match self {
            Refusal::NotUtf8(id, offset) => of_offset(alloc, names, *id, *offset),
            Refusal::BadToken(place) => of_place(alloc, names, "2 BadToken", *place),
            Refusal::LiteralRange(place) => of_place(alloc, names, "3 LiteralRange", *place),
            Refusal::SourceTooBig(id) => of_name(alloc, names, "4 SourceTooBig", *id),
            Refusal::Syntax(id, line) => of_line(alloc, names, "6 Syntax", *id, *line),
            Refusal::FixityClash(place) => of_place(alloc, names, "7 FixityClash", *place),
            Refusal::MissingModule(id) => of_name(alloc, names, "8 MissingModule", *id),
            Refusal::ImportCycle(ids) => of_cycle(alloc, names, ids.as_slice()),
            Refusal::HeaderName(id) => of_name(alloc, names, "10 HeaderName", *id),
            Refusal::NotExported(place, id) => {
                of_use(alloc, names, "11 NotExported", *place, *id)
            }
            Refusal::UnknownName(place, id) => {
                of_use(alloc, names, "12 UnknownName", *place, *id)
            }
            Refusal::Ambiguous(place, id) => of_use(alloc, names, "13 Ambiguous", *place, *id),
            Refusal::Duplicate(place, id) => of_use(alloc, names, "14 Duplicate", *place, *id),
            Refusal::Arity(place) => of_place(alloc, names, "15 Arity", *place),
            Refusal::NonLinear(place) => of_place(alloc, names, "16 NonLinear", *place),
            Refusal::RecursiveLocal(place) => {
                of_place(alloc, names, "17 RecursiveLocal", *place)
            }
            Refusal::SetName(place) => of_place(alloc, names, "18 SetName", *place),
            Refusal::SetRecursion(owner, f) => {
                of_function(alloc, names, "19 SetRecursion", *owner, *f)
            }
            Refusal::TypeClash(owner, f) => of_function(alloc, names, "20 TypeClash", *owner, *f),
            Refusal::Signature(owner, f) => of_function(alloc, names, "21 Signature", *owner, *f),
            Refusal::TypeArity(place) => of_place(alloc, names, "22 TypeArity", *place),
            Refusal::SynonymCycle(id) => of_name(alloc, names, "23 SynonymCycle", *id),
            Refusal::GoalFunctional => String::from_str(alloc, "refused 24 GoalFunctional\n"),
            Refusal::TooManyModules(id) => of_name(alloc, names, "28 TooManyModules", *id),
            Refusal::TooDeep(place) => of_place(alloc, names, "29 TooDeep", *place),
            Refusal::TooLong(id, line) => of_line(alloc, names, "30 TooLong", *id, *line),
            Refusal::TreeTooBig(owner, f) => {
                of_function(alloc, names, "31 TreeTooBig", *owner, *f)
            }
        }
    }
}

/// The text of a name.
fn text(names: &Names, id: NameId) -> &str
    requires { IsKnown names.now id }
    ensures { result.now ≡ text_of names.now id }
{
    names.text(id)
}

fn refused(alloc: Global, title: &str, detail: &str) -> Result<String, AllocError>
    ensures { IfOk result (λ line. string_bytes line ≡ lines.refused title.now detail.now) }
{
    format!(in alloc; "refused {title} {detail}\n")
}

fn of_name(alloc: Global, names: &Names, title: &str, id: NameId) -> Result<String, AllocError>
    requires { IsKnown names.now id }
    ensures { IfOk result (λ line.
        string_bytes line ≡ lines.refused title.now (text_of names.now id)) }
{
    refused(alloc, title, text(names, id))
}

/// The line of a text that is no UTF-8 from an offset on.
fn of_offset(alloc: Global, names: &Names, id: NameId, offset: usize) -> Result<String, AllocError>
    requires { IsKnown names.now id }
    ensures { IfOk result (λ line. string_bytes line
        ≡ lines.token_line (text_of names.now id) (tokens.NotUtf8 offset)) }
{
    let name = text(names, id);
    let detail = format!(in alloc; "{name} offset {offset}")?;
    refused(alloc, "1 NotUtf8", detail.as_str())
}

fn of_line(
    alloc: Global,
    names: &Names,
    title: &str,
    id: NameId,
    line: u32,
) -> Result<String, AllocError>
    requires { IsKnown names.now id }
    ensures { IfOk result (λ text. string_bytes text
        ≡ lines.refused title.now (lines.on_line (text_of names.now id) line)) }
{
    let name = text(names, id);
    let detail = format!(in alloc; "{name}:{line}")?;
    refused(alloc, title, detail.as_str())
}

/// A place in a module, as `MODULE:LINE:COLUMN`.
fn place_text(alloc: Global, names: &Names, place: Place) -> Result<String, AllocError>
    requires { PlaceIsKnown names.now place }
    ensures { IfOk result (λ found. string_bytes found
        ≡ lines.at_place (text_of names.now place.«module») (position_of place)) }
{
    let name = text(names, place.module);
    let Place {
        module: _,
        line,
        column,
    } = place;
    format!(in alloc; "{name}:{line}:{column}")
}

fn of_place(alloc: Global, names: &Names, title: &str, place: Place) -> Result<String, AllocError>
    requires { PlaceIsKnown names.now place }
    ensures { IfOk result (λ line. string_bytes line ≡ lines.refused title.now
        (lines.at_place (text_of names.now place.«module») (position_of place))) }
{
    let detail = place_text(alloc, names, place)?;
    refused(alloc, title, detail.as_str())
}

/// The line of a name that is used at a place.
fn of_use(
    alloc: Global,
    names: &Names,
    title: &str,
    place: Place,
    id: NameId,
) -> Result<String, AllocError>
    requires place { PlaceIsKnown names.now place }
    requires name { IsKnown names.now id }
    ensures { IfOk result (λ line. string_bytes line
        ≡ lines.refused title.now (lines.used_at (text_of names.now place.«module»)
        (position_of place) (text_of names.now id))) }
{
    let place = place_text(alloc, names, place)?;
    let name = text(names, id);
    let detail = format!(in alloc; "{place} {name}")?;
    refused(alloc, title, detail.as_str())
}

/// The text of a function: its own name, after that of its module where this is
/// told.
fn function_text(
    alloc: Global,
    names: &Names,
    owner: Option<NameId>,
    function: NameId,
) -> Result<String, AllocError>
    requires { FunctionIsKnown names.now owner function }
    ensures { IfOk result (λ found.
        string_bytes found ≡ function_named names.now owner function) }
{
    let name = text(names, function);
    match owner {
        Some(id) => {
            let owner = text(names, id);
            format!(in alloc; "{owner}.{name}")
        }
        None => String::from_str(alloc, name),
    }
}

fn of_function(
    alloc: Global,
    names: &Names,
    title: &str,
    owner: Option<NameId>,
    function: NameId,
) -> Result<String, AllocError>
    requires { FunctionIsKnown names.now owner function }
    ensures { IfOk result (λ line. string_bytes line
        ≡ lines.refused title.now (function_named names.now owner function)) }
{
    let detail = function_text(alloc, names, owner, function)?;
    refused(alloc, title, detail.as_str())
}

/// The line of a cycle of imports.
fn of_cycle(alloc: Global, names: &Names, ids: &[NameId]) -> Result<String, AllocError>
    requires { All (IsKnown names.now) ids.now }
    ensures { IfOk result (λ line. string_bytes line ≡ cycle_line (texts_of names.now ids.now)) }
{
    let mut line = String::from_str(alloc, "refused 9 ImportCycle")?;
    'ids: for id in ids {
        line.push_str(" ")?;
        line.push_str(text(names, *id))?;
    }
    line.push_str("\n")?;
    Ok(line)
}
