//! The layout rules, in one pass over the tokens of a text.
ghost use Rattle.std.specs.Prelude.{◌≡◌, ◌∷◌, [], replicate, vec_len, IfErr, IfOk, OnOk};
ghost use Rattle.cu_lex.specs.declared.token.LayoutMark.TheVariants as layout;
ghost use Rattle.cu_layout.specs.declared.fault.TooDeep.TheVariants.{NoMemory};
ghost use Rattle.cu_layout.specs.Blocks.{due_at_start};
ghost use Rattle.cu_layout.specs.Inside.Entries.{begins_line_at, cut_to, plain_stack, sight_at, stack_of, start_or, token_sights, with_marks_at, Lays, LaysOut, IsBeyond, IsWithin};
ghost use Rattle.cu_layout.specs.Forms.{only_names};
ghost use Rattle.cu_layout.specs.Reading.{Gives, Tells};
ghost use Rattle.cu_layout.specs.Rules.{block_column, block_tokens, brace_end, partner_end, stack_with, last_marks, indentation, due_block};

use crate::begun::Begun;
use crate::fault::TooDeep;
use crate::form::Form;
use crate::stack::{Cut, Entry, below_brace, blocks, innermost, line_start, note, to_partner};
use cu_lex::{LayoutMark, Token, TokenKind};
use cu_names::{NameId, Place};
use std::alloc::Global;

/// The most entries of the stack.
const MAX_ENTRIES: usize = 256;

/// What layout sees of a token: its form, and where it stands.
#[derive(Clone, Copy)]
struct Sight {
    form: Form,
    place: Place,
}

/// The tokens with the braces and semicolons that the layout rules put in. The
/// text is a whole module, or else an expression.
///
/// What is put in has the place of the token before which it stands, at the end
/// that of the last token. In a text without tokens it has line 1 and column 1
/// in module 0, which then names no token.
///
/// `TooDeep::At` has the place of the first token at which more than 256
/// blocks, brackets and keywords would stand open.
pub fn block(alloc: Global, tokens: Vec<Token>, whole: bool) -> Result<Vec<Token>, TooDeep>
    ensures tokens { IfOk result (λ laid. Gives whole tokens.items laid.items) }
    ensures fault { IfErr result (λ fault. Tells whole tokens.items fault) }
{
    let mut due = due_at_start(tokens.as_slice(), whole);
    let mut stack = Vec::new(alloc);
    let mut laid = Vec::new(alloc);
    let mut last = None;
    let mut left = tokens;
    left.reverse();
    while let Some(token) = left.pop() {
        let form = Form::of(&token.kind);
        let place = token.place;
        let first = begins_line(last, place);
        let sight = Sight { form, place };
        lay_out(&mut laid, &mut stack, due, first, sight)?;
        laid.push(token)?;
        due = form.is_block_keyword();
        last = Some(place);
        give_back(&mut left);
    }
    finish(&mut laid, stack.as_slice(), due, start_or(last))?;
    Ok(laid)
}

/// Whether a block is due at the start of a text: a module without a header is
/// a block.
fn due_at_start(tokens: &[Token], whole: bool) -> bool
    ensures { result ≡ due_at_start whole (token_sights tokens.now) }
{
    match tokens {
        [] => whole,
        [first, ..] => whole && !Form::of(&first.kind).is_module(),
    }
}

/// Whether a token begins its line: there is no token before it, or that one
/// stands on another line.
fn begins_line(last: Option<Place>, place: Place) -> bool
    ensures { result ≡ begins_line_at last place }
{
    match last {
        None => true,
        Some(last) => last.line != place.line,
    }
}

/// Gives back the memory of the tokens that were taken from a list, once they
/// are more than an eighth of what it has room for.
fn give_back(left: &mut Vec<Token>)
    ensures items { left.new.items ≡ left.old.items }
    ensures len { vec_len left.new ≡ vec_len left.old }
{
    if left.len() < left.capacity() / 8 * 7 {
        left.shrink_to_fit();
    }
}

/// The place of the last token, or where a text without tokens begins.
fn start_or(last: Option<Place>) -> Place
    ensures { result ≡ start_or last }
{
    match last {
        None => Place {
            module: NameId(0),
            line: 1,
            column: 1,
        },
        Some(place) => place,
    }
}

/// Lays out what all rules put before a token, and changes the stack. The token
/// itself is added by the caller.
fn lay_out(
    laid: &mut Vec<Token>,
    stack: &mut Vec<Entry>,
    due: bool,
    first: bool,
    sight: Sight,
) -> Result<(), TooDeep>
    ensures ok { OnOk result
        (LaysOut due first sight.form sight.place laid.old.items laid.new.items stack.old.items
        stack.new.items) }
    ensures fault { IfErr result (IsBeyond due first sight.form sight.place stack.old.items) }
{
    open(laid, stack, due, first, sight)?;
    within_limit(stack.as_slice(), sight.place)?;
    end(laid, stack, sight)?;
    close_brace(laid, stack, sight)?;
    enter(stack, sight.form)?;
    within_limit(stack.as_slice(), sight.place)?;
    Ok(())
}

fn within_limit(stack: &[Entry], place: Place) -> Result<(), TooDeep>
    ensures { IsWithin place (stack_of stack.now) result }
{
    if stack.len() > MAX_ENTRIES {
        return Err(TooDeep::At(place));
    }
    Ok(())
}

/// Rules 1 and 2: a block that is due opens or is empty, and else the start of
/// a line closes blocks or begins an item.
fn open(
    laid: &mut Vec<Token>,
    stack: &mut Vec<Entry>,
    due: bool,
    first: bool,
    sight: Sight,
) -> Result<(), TooDeep>
    ensures ok { OnOk result (Lays sight.place laid.old.items laid.new.items stack.new.items
        (due_block due first (sight_at sight.form sight.place) (stack_of stack.old.items))) }
    ensures err { IfErr result (λ fault. fault ≡ NoMemory) }
{
    let place = sight.place;
    if due && !sight.form.is_open_brace() {
        emit(laid, LayoutMark::Open, place)?;
        if block_column(stack.as_slice()) < place.column {
            stack.push(Entry::Block(place.column, Begun::Names))?;
            return Ok(());
        }
        emit(laid, LayoutMark::Close, place)?;
    }
    if first {
        begin_line(laid, stack, sight)?;
    }
    Ok(())
}

/// The column of the innermost block, 0 where there is none or a brace is
/// nearer.
fn block_column(stack: &[Entry]) -> u32
    ensures { result ≡ block_column (stack_of stack.now) }
{
    match innermost(stack) {
        None => 0,
        Some((column, _)) => column,
    }
}

/// Rule 2: the first token of a line closes blocks or begins an item.
fn begin_line(laid: &mut Vec<Token>, stack: &mut Vec<Entry>, sight: Sight) -> Result<(), TooDeep>
    ensures ok { OnOk result (Lays sight.place laid.old.items laid.new.items stack.new.items
        (indentation (sight_at sight.form sight.place) (stack_of stack.old.items)
        (stack_of stack.old.items))) }
    ensures err { IfErr result (λ fault. fault ≡ NoMemory) }
{
    let place = sight.place;
    let line = line_start(stack.as_slice(), sight.form, place);
    close(laid, stack, line.cut, place)?;
    if line.item {
        emit(laid, LayoutMark::Separator, place)?;
        stack.push(Entry::Block(place.column, Begun::Names))?;
    }
    Ok(())
}

/// Rule 3: a token ends what its partner opened. None but tokens that go on
/// with an item have a partner.
fn end(laid: &mut Vec<Token>, stack: &mut Vec<Entry>, sight: Sight) -> Result<(), TooDeep>
    ensures ok { OnOk result (Lays sight.place laid.old.items laid.new.items stack.new.items
        (partner_end sight.form (stack_of stack.old.items))) }
    ensures err { IfErr result (λ fault. fault ≡ NoMemory) }
{
    let form = sight.form;
    let place = sight.place;
    if !form.goes_on() {
        return Ok(());
    }
    let Some(cut) = to_partner(stack.as_slice(), form) else {
        return Ok(());
    };
    if form.is_comma() {
        if cut.closed > 0 && only_names(stack.as_slice()) {
            return Ok(());
        }
        return close(laid, stack, cut, place);
    }
    close(laid, stack, cut, place)?;
    stack.pop();
    Ok(())
}

/// Whether the innermost block has names, operators in parentheses and commas
/// alone.
fn only_names(stack: &[Entry]) -> bool
    ensures { result ≡ only_names (block_tokens (stack_of stack.now)) }
{
    match innermost(stack) {
        None => true,
        Some((_, begun)) => begun.is_names(),
    }
}

/// Rule 4: a closing brace of the text closes the blocks in it.
fn close_brace(laid: &mut Vec<Token>, stack: &mut Vec<Entry>, sight: Sight) -> Result<(), TooDeep>
    ensures ok { OnOk result (Lays sight.place laid.old.items laid.new.items stack.new.items
        (brace_end sight.form (stack_of stack.old.items))) }
    ensures err { IfErr result (λ fault. fault ≡ NoMemory) }
{
    if !sight.form.is_close_brace() {
        return Ok(());
    }
    match below_brace(stack.as_slice()) {
        None => Ok(()),
        Some(cut) => close(laid, stack, cut, sight.place),
    }
}

/// Rule 5: the token itself stands in its block, and may open something.
fn enter(stack: &mut Vec<Entry>, form: Form) -> Result<(), TooDeep>
    ensures ok { OnOk result (stack_of stack.new.items
        ≡ plain_stack (stack_with form (stack_of stack.old.items))) }
    ensures err { IfErr result (λ fault. fault ≡ NoMemory) }
{
    note(stack.as_mut_slice(), form);
    if let Some(entry) = Entry::opened_by(form) {
        stack.push(entry)?;
    }
    Ok(())
}

/// Takes entries off the stack, and closes the blocks among them.
fn close(
    laid: &mut Vec<Token>,
    stack: &mut Vec<Entry>,
    cut: Cut,
    place: Place,
) -> Result<(), TooDeep>
    ensures ok { OnOk result (Lays place laid.old.items laid.new.items stack.new.items
        (cut_to stack.old.items cut)) }
    ensures err { IfErr result (λ fault. fault ≡ NoMemory) }
{
    stack.truncate(cut.kept);
    close_blocks(laid, cut.closed, place)
}

fn close_blocks(laid: &mut Vec<Token>, count: usize, place: Place) -> Result<(), TooDeep>
    ensures ok { OnOk result (laid.new.items
        ≡ with_marks_at place (replicate count layout.Close) laid.old.items) }
    ensures err { IfErr result (λ fault. fault ≡ NoMemory) }
{
    for _ in 0..count {
        emit(laid, LayoutMark::Close, place)?;
    }
    Ok(())
}

/// At the end of the text: a block that is due is empty, and all blocks close.
fn finish(laid: &mut Vec<Token>, stack: &[Entry], due: bool, place: Place) -> Result<(), TooDeep>
    ensures ok { OnOk result (laid.new.items
        ≡ with_marks_at place (last_marks due (stack_of stack.now)) laid.old.items) }
    ensures err { IfErr result (λ fault. fault ≡ NoMemory) }
{
    if due {
        emit(laid, LayoutMark::Open, place)?;
        emit(laid, LayoutMark::Close, place)?;
    }
    close_blocks(laid, blocks(stack), place)
}

fn emit(laid: &mut Vec<Token>, mark: LayoutMark, place: Place) -> Result<(), TooDeep>
    ensures ok { OnOk result (laid.new.items ≡ with_marks_at place (mark ∷ []) laid.old.items) }
    ensures err { IfErr result (λ fault. fault ≡ NoMemory) }
{
    let kind = TokenKind::Layout(mark);
    laid.push(Token { kind, place })?;
    Ok(())
}
