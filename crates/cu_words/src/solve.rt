//! What a `solve` asks for.
use cu_machine::SearchLimits;

/// What a `solve` asks for: the listing of a goal in a module of a folder,
/// found within these limits.
#[derive(Clone, Copy, Debug)]
pub struct Solve<'a> {
    /// The name of the module.
    pub module: &'a str,
    /// The text of the goal.
    pub goal: &'a str,
    /// The folder that holds the module.
    pub folder: &'a str,
    /// How many workers take part, 1 to 64, where the words name a number.
    pub workers: Option<u32>,
    /// Where the search ends.
    pub limits: SearchLimits,
}
