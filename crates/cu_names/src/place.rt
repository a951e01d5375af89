//! Places in the texts of modules.
use crate::NameId;

/// A place in the text of a module. Lines and columns count from 1, columns in
/// characters.
#[derive(Clone, Copy, Debug, PartialEq, Eq)]
pub struct Place {
    pub module: NameId,
    pub line: u32,
    pub column: u32,
}
