//! What inference answers, as a text.

use crate::sample_types::{FUNCTIONS, TYPES};
use crate::written_programs::program;
use cu_kernel::{FunId, TypeName};
use cu_types::{Interface, Node, SharedType, TypeFault, TypeHead, infer};
use std::alloc::Global;
use std::process::Abort;

/// The name of a data type. Of synonyms none is left.
fn type_name(name: TypeName) -> Option<&'static str> {
    match name {
        TypeName::Data(id) => TYPES.get(id.0).copied(),
        TypeName::Synonym(_) => None,
    }
}

/// The functions from one type to another, where the texts of both are known.
fn arrow_text(alloc: Global, arguments: &[usize], texts: &[String]) -> Option<String> {
    let [argument, value] = arguments else {
        return None;
    };
    let argument = texts.get(*argument)?.as_str();
    let value = texts.get(*value)?.as_str();
    format!(in alloc; "({argument} -> {value})").ok()
}

/// A type's name with arguments, where their texts are known.
fn named_text(
    alloc: Global,
    name: TypeName,
    arguments: &[usize],
    texts: &[String],
) -> Option<String> {
    let mut text = String::new(alloc);
    text.push_str(type_name(name)?).ok()?;
    for argument in arguments {
        text.push_str(" ").ok()?;
        text.push_str(texts.get(*argument)?.as_str()).ok()?;
    }
    if arguments.is_empty() {
        return Some(text);
    }
    let inside = text.as_str();
    format!(in alloc; "({inside})").ok()
}

/// A type of a table, where the texts of those before it are known.
fn node_text(alloc: Global, node: &Node, texts: &[String]) -> Option<String> {
    match node {
        Node::Variable(x) => format!(in alloc; "{x}").ok(),
        Node::Applied(TypeHead::Arrow, arguments) => arrow_text(alloc, arguments.as_slice(), texts),
        Node::Applied(TypeHead::Named(name), arguments) => {
            named_text(alloc, *name, arguments.as_slice(), texts)
        }
    }
}

fn type_text(alloc: Global, shared: &SharedType) -> Option<String> {
    let opened = shared.open();
    let mut texts = Vec::new(alloc);
    for node in opened.types {
        let text = node_text(alloc, node, texts.as_slice())?;
        texts.push(text).ok()?;
    }
    String::from_str(alloc, texts.get(opened.place)?.as_str()).ok()
}

/// The types of the functions after so many, each followed by a semicolon
/// but the last.
fn types_text(alloc: Global, interface: &Interface, before: usize) -> Option<String> {
    let mut text = String::new(alloc);
    for shared in interface.types().iter().skip(before) {
        if !text.is_empty() {
            text.push_str("; ").ok()?;
        }
        let own = type_text(alloc, shared)?;
        text.push_str(own.as_str()).ok()?;
    }
    Some(text)
}

/// A fault of a group, with the name of its first function.
fn group_text(alloc: Global, fault: &str, function: FunId) -> Option<String> {
    let name = FUNCTIONS.get(function.0).copied()?;
    format!(in alloc; "{fault} {name}").ok()
}

fn fault_text(alloc: Global, fault: TypeFault) -> Option<String> {
    match fault {
        TypeFault::TypeClash(function, _) => group_text(alloc, "clash", function),
        TypeFault::Signature(function) => group_text(alloc, "signature", function),
        TypeFault::GoalFunctional => format!(in alloc; "functional goal").ok(),
        TypeFault::NoMemory => None,
    }
}

/// What inference answers for the program of a line.
fn answer(alloc: Global, line: &str, before: usize) -> Option<String> {
    let program = program(alloc, line)?;
    match infer(alloc, &program) {
        Ok(interface) => types_text(alloc, &interface, before),
        Err(fault) => fault_text(alloc, fault),
    }
}

/// Expects these types of the functions after so many, or this fault.
pub(crate) fn expect_after<R: Abort>(
    rt: &R,
    alloc: Global,
    before: usize,
    line: &str,
    expected: &str,
) {
    match answer(alloc, line, before) {
        Some(found) => assert_eq!(rt; found.as_str(), expected, "of {line}"),
        None => panic!(rt; "no answer for {line}"),
    }
}

/// How many types the table of the first function has that is written down.
pub(crate) fn table_size(alloc: Global, line: &str, before: usize) -> Option<usize> {
    let program = program(alloc, line)?;
    let interface = infer(alloc, &program).ok()?;
    Some(interface.types().get(before)?.open().types.len())
}
