//! Laws of lifting.
ghost use Rattle.std.specs.Prelude.{◌≡◌, List, ℕ};
ghost use Rattle.cu_kernel.specs.Kernel.{Kernel};
ghost use Rattle.cu_kernel.specs.LocalKernel.{LocalKernel};
ghost use Rattle.cu_kernel.specs.LocalValid.{IsJoined, IsPart};
ghost use Rattle.cu_kernel.specs.Valid.{IsValid};
ghost use Rattle.cu_lift.specs.Lifting.{HaveArities, Lifts};
ghost use Rattle.cu_names.specs.Texts.{AllDiffer};

/// Lifting keeps validity: of a program that is right in its parts and joined
/// whole it makes a valid one, where no function comes to take more arguments
/// than a graph can hold.
pub fn lifted_programs_are_valid()
    ensures { (texts : List (List ℕ)) (program : LocalKernel) (result : Kernel)
        → IsPart program → IsJoined program → Lifts texts program result → HaveArities result
        → IsValid result }
{}

/// Lifting makes at most one program, where each text has one number in the
/// table of names.
pub fn lifted_programs_are_unique()
    ensures { (texts : List (List ℕ)) (program : LocalKernel) (first second : Kernel)
        → IsPart program → AllDiffer texts
        → Lifts texts program first → Lifts texts program second → first ≡ second }
{}
