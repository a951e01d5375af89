//! The syntax of a goal's text.
ghost use Rattle.std.specs.Prelude.{◌≡◌, IfErr, IfOk, Ok};
ghost use Rattle.cu_front.specs.GoalTexts.{GoalIsRead};
ghost use Rattle.cu_front.specs.Inside.StageFaults.{
  IsUnread,
  Tells,
  fault_of_layout,
  fault_of_syntax,
  fault_of_tokens,
};
ghost use Rattle.cu_names.specs.Texts.{AllDiffer, Extends, IsKnown, text_of};
ghost use Rattle.cu_syntax.specs.Answer.{goal_meaning};
ghost use Rattle.cu_syntax.specs.Owners.{GoalIsOf};

use crate::fault::StageFault;
use crate::refusal::Refusal;
use cu_layout::{TooDeep, block};
use cu_lex::{LexFault, lex};
use cu_names::{NameId, Names};
use cu_syntax::{GoalText, ParseFault, parse_goal};
use std::alloc::Global;

/// What the text of a goal says. Its names are interned.
///
/// # Errors
///
/// The first fault of its tokens, of its layout or of its syntax, told of a
/// module of this name; an allocation failure.
pub(crate) fn read_goal(
    alloc: Global,
    names: &mut Names,
    owner: NameId,
    text: &[u8],
) -> Result<GoalText, StageFault>
    requires known { IsKnown names.old owner }
    ensures read { IfOk result (λ goal.
        GoalIsRead text.now (Ok (goal_meaning names.new goal))) }
    ensures fault { IfErr result
        (Tells names.new (IsUnread (text_of names.new owner) text.now)) }
    ensures owned { IfOk result (GoalIsOf owner names.new) }
    ensures names { Extends names.old names.new }
    ensures differ { AllDiffer names.old → AllDiffer names.new }
{
    let tokens = match lex(alloc, names, owner, text) {
        Ok(tokens) => tokens,
        Err(fault) => return Err(of_tokens(owner, fault)),
    };
    let laid = match block(alloc, tokens, false) {
        Ok(laid) => laid,
        Err(fault) => return Err(of_layout(fault)),
    };
    match parse_goal(alloc, laid.as_slice()) {
        Ok(goal) => Ok(goal),
        Err(fault) => Err(of_syntax(owner, fault)),
    }
}

fn of_tokens(owner: NameId, fault: LexFault) -> StageFault
    ensures { result ≡ fault_of_tokens owner fault }
{
    match fault {
        LexFault::SourceTooBig => StageFault::Refused(Refusal::SourceTooBig(owner)),
        LexFault::NotUtf8(offset) => StageFault::Refused(Refusal::NotUtf8(owner, offset)),
        LexFault::BadToken(place) => StageFault::Refused(Refusal::BadToken(place)),
        LexFault::LiteralRange(place) => StageFault::Refused(Refusal::LiteralRange(place)),
        LexFault::NoMemory => StageFault::NoMemory,
    }
}

fn of_layout(fault: TooDeep) -> StageFault
    ensures { result ≡ fault_of_layout fault }
{
    match fault {
        TooDeep::At(place) => StageFault::Refused(Refusal::TooDeep(place)),
        TooDeep::NoMemory => StageFault::NoMemory,
    }
}

fn of_syntax(owner: NameId, fault: ParseFault) -> StageFault
    ensures { result ≡ fault_of_syntax owner fault }
{
    match fault {
        ParseFault::Syntax(line) => StageFault::Refused(Refusal::Syntax(owner, line)),
        ParseFault::TooLong(line) => StageFault::Refused(Refusal::TooLong(owner, line)),
        ParseFault::NoMemory => StageFault::NoMemory,
    }
}
