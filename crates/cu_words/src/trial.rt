//! What a trial asks for.

/// A trial of the search: a built-in goal whose tree forks in two at each of so
/// many levels.
#[derive(Clone, Copy, Debug)]
pub struct Trial {
    /// How often a branch forks, 0 to 14.
    pub depth: u32,
    /// How many workers take part, 1 to 64, where the words name a number.
    pub workers: Option<u32>,
    /// How many branches a level of the search may have.
    pub width: u32,
    /// How many steps a round takes a branch on.
    pub stride: u64,
}
