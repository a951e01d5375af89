//! Laws of the types that programs declare. These functions do nothing: their
//! contracts are the laws.
ghost use Rattle.cu_front_laws.specs.DeclaredTypes.{
  GoalsDeclareTypes,
  ModulesDeclareTypes,
  RightGoalsDeclare,
  RightModulesDeclare,
};

/// What `declared_types` and `declared_types_goal` accept meets the usual
/// condition of type inference: in the program that modules come to, and in
/// that of modules and a goal, each name of a type has as many arguments as the
/// type has parameters, and no synonym leads to itself. This holds of each
/// program that inference is asked about, also of one that is refused later.
pub fn accepted_types_are_declared()
    ensures right_modules { RightModulesDeclare }
    ensures right_goals { RightGoalsDeclare }
    ensures modules { ModulesDeclareTypes }
    ensures goals { GoalsDeclareTypes }
{}
