//! The stack of what stands open. Its last entry is the innermost.
ghost use Rattle.std.specs.Prelude.{◌≡◌, replicate};
ghost use Rattle.std.specs.Option.{option_map};
ghost use Rattle.cu_lex.specs.declared.token.LayoutMark.TheVariants as layout;
ghost use Rattle.cu_layout.specs.Inside.Entries.{line_step, begun_of, column_of, cut_to, entry_of, plain_stack, sight_at, stack_of, state_of};
ghost use Rattle.cu_layout.specs.Rules.{below_brace, block_column, block_tokens, closing_marks, indentation, stack_noting, opening_entry, to_partner};

use crate::begun::Begun;
use crate::form::{Form, Opening};
use cu_lex::{Keyword, Mark};
use cu_names::Place;

/// What stands open: a block, a brace, or a bracket or a keyword.
#[derive(Clone, Copy, Debug)]
pub enum Entry {
    /// A block that layout opened: its column, and how it has begun.
    Block(u32, Begun),
    /// A brace of the text.
    Brace,
    Open(Opening),
}

/// How far entries are taken off the stack.
#[derive(Clone, Copy, Debug)]
pub struct Cut {
    /// How many entries stay on the stack.
    pub kept: usize,
    /// How many of the entries that are taken off are blocks.
    pub closed: usize,
}

/// The stack from a token's partner on, if there is one above the nearest brace.
pub fn to_partner(stack: &[Entry], form: Form) -> Option<Cut>
    ensures { option_map (cut_to stack.now) result ≡ to_partner form (stack_of stack.now) }
{
    let mut closed = 0;
    for index in (0..stack.len()).rev() {
        match stack[index] {
            Entry::Block(_, _) => closed += 1,
            Entry::Brace => return None,
            Entry::Open(opening) => {
                if form.is_partner(opening) {
                    return Some(Cut {
                        kept: index + 1,
                        closed,
                    });
                }
            }
        }
    }
    None
}

/// What is below the nearest brace, if there is one.
pub fn below_brace(stack: &[Entry]) -> Option<Cut>
    ensures { option_map (cut_to stack.now) result ≡ below_brace (stack_of stack.now) }
{
    let mut closed = 0;
    for index in (0..stack.len()).rev() {
        match stack[index] {
            Entry::Block(_, _) => closed += 1,
            Entry::Brace => {
                return Some(Cut {
                    kept: index,
                    closed,
                });
            }
            Entry::Open(_) => {}
        }
    }
    None
}

/// What the first token of a line does to the stack: blocks that it closes, and
/// maybe an item that it begins.
#[derive(Clone, Copy, Debug)]
pub struct Line {
    pub cut: Cut,
    /// Whether the token begins an item of the block that stood on what is
    /// kept.
    pub item: bool,
}

/// The blocks that the first token of a line closes, and whether it begins an
/// item of the innermost one that is left.
pub fn line_start(stack: &[Entry], form: Form, place: Place) -> Line
    ensures { line_step stack.now place.column result
        ≡ indentation (sight_at form place) (stack_of stack.now) (stack_of stack.now) }
{
    let column = place.column;
    let mut cut = Cut {
        kept: stack.len(),
        closed: 0,
    };
    for index in (0..stack.len()).rev() {
        let block = match stack[index] {
            Entry::Block(block, _) => block,
            Entry::Brace => break,
            Entry::Open(_) => continue,
        };
        if column < block || (column == block && form.is_where()) {
            cut = Cut {
                kept: index,
                closed: cut.closed + 1,
            };
        } else {
            let item = column == block && !form.goes_on();
            if item {
                cut.kept = index;
            }
            return Line { cut, item };
        }
    }
    Line { cut, item: false }
}

/// The innermost block, unless a brace is nearer.
pub fn innermost(stack: &[Entry]) -> Option<(u32, Begun)>
    ensures column { column_of result ≡ block_column (stack_of stack.now) }
    ensures begun { state_of result ≡ begun_of (block_tokens (stack_of stack.now)) }
{
    for index in (0..stack.len()).rev() {
        match stack[index] {
            Entry::Block(column, begun) => return Some((column, begun)),
            Entry::Brace => return None,
            Entry::Open(_) => {}
        }
    }
    None
}

/// Notes a token in the innermost block, unless a brace is nearer.
pub fn note(stack: &mut [Entry], form: Form)
    ensures { stack_of stack.new ≡ plain_stack (stack_noting form (stack_of stack.old)) }
{
    for index in (0..stack.len()).rev() {
        match stack[index] {
            Entry::Block(column, begun) => {
                stack[index] = Entry::Block(column, begun.with(form));
                return;
            }
            Entry::Brace => return,
            Entry::Open(_) => {}
        }
    }
}

/// How many blocks stand open.
pub fn blocks(stack: &[Entry]) -> usize
    ensures { replicate result layout.Close ≡ closing_marks (stack_of stack.now) }
{
    let mut count = 0;
    for index in (0..stack.len()).rev() {
        if let Entry::Block(_, _) = stack[index] {
            count += 1;
        }
    }
    count
}

impl Entry {
    /// What a token opens.
    pub fn opened_by(form: Form) -> Option<Entry>
        ensures { option_map entry_of result ≡ opening_entry form }
    {
        match form {
            Form::Mark(Mark::OpenBrace) => Some(Entry::Brace),
            Form::Mark(Mark::OpenParen) => Some(Entry::Open(Opening::Paren)),
            Form::Mark(Mark::OpenSquare) => Some(Entry::Open(Opening::Square)),
            Form::Keyword(Keyword::Let) => Some(Entry::Open(Opening::Let)),
            Form::Keyword(Keyword::If) => Some(Entry::Open(Opening::If)),
            Form::Keyword(Keyword::Then) => Some(Entry::Open(Opening::Then)),
            Form::Keyword(Keyword::Else) => Some(Entry::Open(Opening::Else)),
            Form::Keyword(Keyword::Case) => Some(Entry::Open(Opening::Case)),
            Form::Keyword(Keyword::Fcase) => Some(Entry::Open(Opening::Case)),
            Form::Keyword(Keyword::In) => Some(Entry::Open(Opening::In)),
            Form::Lambda => Some(Entry::Open(Opening::Lambda)),
            _ => None,
        }
    }
}
