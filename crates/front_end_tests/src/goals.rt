//! Goals of texts.
use cu_layout::block;
use cu_lex::lex;
use cu_names::Names;
use cu_syntax::{GoalText, parse_goal};
use std::alloc::Global;

/// The goal of a text, if it is one. The name of its module is `goal`.
pub(crate) fn goal_of(alloc: Global, names: &mut Names, text: &str) -> Option<GoalText> {
    let module = names.intern("goal").ok()?;
    let tokens = lex(alloc, names, module, text.as_bytes()).ok()?;
    let tokens = block(alloc, tokens, false).ok()?;
    parse_goal(alloc, tokens.as_slice()).ok()
}
