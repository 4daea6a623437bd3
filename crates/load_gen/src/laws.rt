ghost use Rattle.std.specs.Prelude.{ℕ};
ghost use Rattle.std.specs.List.{AllByRecursion};
ghost use Rattle.core_isa.specs.Program.{IsProgram};
ghost use Rattle.mesh_doc.specs.Laws.{KeepsLimits};
ghost use Rattle.load_gen.specs.Load.{load};

/// Each load keeps every limit of a document, and its programs are ones that cores may be given. At run time it does
/// nothing.
pub fn load_laws()
    ensures limits { (number : ℕ) → KeepsLimits (load number) }
    ensures programs { (number : ℕ) → AllByRecursion IsProgram (load number).programs }
{}
