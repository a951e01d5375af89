//! What a search is asked for.
use cu_front::Compiled;
use cu_machine::SearchLimits;
use cu_names::Names;

/// A compiled goal, the names in it, and the limits of its search.
#[derive(Clone, Copy)]
pub(crate) struct Problem<'a> {
    pub(crate) names: &'a Names,
    pub(crate) compiled: &'a Compiled,
    pub(crate) limits: SearchLimits,
}
