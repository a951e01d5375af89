//! What a `check` asks for.

/// What a `check` asks for: whether the proof that a file holds is right, over
/// a module of a folder.
#[derive(Clone, Copy, Debug)]
pub struct Check<'a> {
    /// The name of the module.
    pub module: &'a str,
    /// The path of the file that holds the proof, as it is given.
    pub path: &'a str,
    /// The folder that holds the module.
    pub folder: &'a str,
}
