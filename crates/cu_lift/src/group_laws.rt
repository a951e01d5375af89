//! Laws of dependency groups.
ghost use Rattle.std.specs.Prelude.{◌≡◌, List};
ghost use Rattle.cu_calculus.specs.Program.{Program};
ghost use Rattle.cu_calculus.specs.declared.FunId.{FunId};
ghost use Rattle.cu_lift.specs.Groups.{AreGroups};

/// A program has one list of dependency groups.
pub fn groups_are_unique()
    ensures { (program : Program) (first second : List (List FunId)) → AreGroups program first
        → AreGroups program second → first ≡ second }
{}
