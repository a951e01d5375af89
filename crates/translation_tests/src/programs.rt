//! Modules and goals, and the kernel programs that they come to.
use crate::terms::lines;
use cu_front::{Asked, compile};
use cu_io::ShelfLibrary;
use cu_names::Names;
use std::alloc::Global;

/// The lines of the module `M` of this text, and of a goal there.
pub(crate) fn translated(alloc: Global, text: &str, goal: &str) -> Option<String> {
    let mut library = ShelfLibrary::new(alloc, Vec::new(alloc));
    library.add_module(".", "M", text.as_bytes()).ok()?;
    let mut names = Names::new(alloc);
    let asked = Asked {
        root: "M",
        folder: ".",
        goal,
    };
    let found = compile(alloc, &mut names, asked, &mut library).ok()?;
    lines(alloc, &found.program, &names).ok()
}
