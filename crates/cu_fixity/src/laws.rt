//! Laws of the definition of grouping. These functions do nothing: their
//! contracts are the laws.
ghost use Rattle.cu_fixity.specs.declared.fixity.Fixity.{Fixity};
ghost use Rattle.cu_fixity.specs.Laws.{GroupsOnce};

/// Items have at most one tree in which all operands fit.
pub fn one_tree<A, O>()
    ensures { (fixity : O → Fixity) → GroupsOnce A fixity }
{}
