//! What the front end is asked for.

/// A goal in a module, as what the front end is asked for.
#[derive(Clone, Copy, Debug)]
pub struct Asked<'a> {
    /// The name of the module.
    pub root: &'a str,
    /// The folder that holds the module, and the modules that it imports.
    pub folder: &'a str,
    /// The text of the goal.
    pub goal: &'a str,
}

/// A module with all that it imports, as what the front end is asked for.
#[derive(Clone, Copy, Debug)]
pub struct AskedModule<'a> {
    /// The name of the module.
    pub root: &'a str,
    /// The folder that holds the module, and the modules that it imports.
    pub folder: &'a str,
}
