//! Laws of the code of flat programs.
ghost use Rattle.std.specs.Prelude.{◌≡◌, IsTrue};
ghost use Rattle.cu_calculus.specs.Flat.{is_flat};
ghost use Rattle.cu_calculus.specs.FlatProgram.{program_of};
ghost use Rattle.cu_calculus.specs.Program.{Program};
ghost use Rattle.cu_calculus.specs.Valid.{IsValid};
ghost use Rattle.cu_calculus.specs.WellFormed.{is_well_formed};
ghost use Rattle.cu_flat.specs.Layout.{laid_out};
ghost use Rattle.cu_flat.specs.Order.{stand_after_parts};

/// The code of a valid flat program is well-formed, and is the code of that
/// program. In the code of any program each expression stands after its parts.
pub fn flat_programs_have_code()
    ensures well_formed { (program : Program) → IsValid program → IsTrue (is_flat program)
        → IsTrue (is_well_formed (laid_out program)) }
    ensures same { (program : Program) → IsValid program → IsTrue (is_flat program)
        → program_of (laid_out program) ≡ program }
    ensures ordered { (program : Program)
        → IsTrue (stand_after_parts 0 (laid_out program).expressions) }
{}
