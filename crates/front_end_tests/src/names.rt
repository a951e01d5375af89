//! Tables of names.
use cu_names::{NameId, Names};
use std::process::Abort;

/// Texts in the order in which they are added to a table, and their numbers.
const TEXTS: [(&str, usize); 6] = [
    ("a", 0),
    ("bc", 1),
    ("a", 0),
    ("", 2),
    ("\u{e9}", 3),
    ("bc", 1),
];

/// Expects the number of a text that is added to a table.
fn expect_number<R: Abort>(rt: &R, names: &mut Names, text: &str, number: usize) {
    assert_eq!(rt; names.intern(text).ok(), Some(NameId(number)), "{text}");
}

/// Expects the table that has these texts.
fn expect_table<R: Abort>(rt: &R, names: &Names) {
    assert_eq!(rt; names.count(), 4);
    assert_eq!(rt; names.find("b"), None);
    let id = names.find("bc").expect(rt, "it was interned");
    assert_eq!(rt; id, NameId(1));
    assert_eq!(rt; names.text(id), "bc");
}

#[test]
fn a_table_of_names(rt: HostRuntime) {
    let mut names = Names::new(rt.alloc());
    for (text, number) in &TEXTS {
        expect_number(&rt, &mut names, text, *number);
    }
    expect_table(&rt, &names);
}
