//! What a `compile` asks for.

/// What a `compile` asks for: the text of a module of a folder as FlatCurry.
#[derive(Clone, Copy, Debug)]
pub struct Compile<'a> {
    /// The name of the module.
    pub module: &'a str,
    /// The folder that holds the module.
    pub folder: &'a str,
}
