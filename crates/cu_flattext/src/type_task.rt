//! The tasks that are left while types are written.
use cu_kernel::TypeTerm;

/// What the variables of a type stand for.
#[derive(Clone, Copy)]
pub(crate) enum Variables<'p> {
    /// So many type variables, with the numbers from 0 on.
    Parameters(u32),
    /// These types, which stand in the scope with an index.
    Arguments(&'p [TypeTerm], usize),
}

/// A scope of types: what their variables stand for.
#[derive(Clone, Copy)]
pub(crate) struct Scope<'p> {
    pub(crate) variables: Variables<'p>,
    /// How many synonyms may be expanded inside one another.
    pub(crate) depth: usize,
}

/// A part of the text of a type that is still to be written. The index beside a
/// type is that of its scope.
#[derive(Clone, Copy)]
pub(crate) enum TypeTask<'p> {
    /// The text of a type.
    Type(&'p TypeTerm, usize),
    /// The texts of types, with commas between them.
    Types(&'p [TypeTerm], usize),
    /// The texts of types, each after a comma.
    Further(&'p [TypeTerm], usize),
    /// A text as it is.
    Text(&'static str),
    /// The last scope isn't needed from here on.
    Leave,
}
