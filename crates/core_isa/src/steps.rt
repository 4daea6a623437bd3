ghost use Rattle.std.specs.Prelude.{◌≡◌, ◌↔◌, ℕ, ◌+◌, List, Some, IsSome, option_and_then};
ghost use Rattle.core_isa.specs.declared.instr.Instr.{Instr};
ghost use Rattle.core_isa.specs.declared.next.Next.{Next};
ghost use Rattle.core_isa.specs.Core.{CoreState, DidMore, next_of, stepped, advanced, loaded, with_result};

/// The laws of cores, over every program and core. At run time it does nothing.
pub fn core_laws()
    // A core can do a register instruction exactly where its next is one. It then has done one more.
    ensures can_step { (program : List Instr) (core : CoreState)
        → (next_of program core ≡ Next.Register) ↔ IsSome (stepped program core) }
    ensures one { (program : List Instr) (core new : CoreState)
        → stepped program core ≡ Some new → DidMore 1 core new }

    // So it is with n of them, and m and then n are m + n.
    ensures none { (program : List Instr) (core : CoreState) → advanced program 0 core ≡ Some core }
    ensures many { (program : List Instr) (n : ℕ) (core new : CoreState)
        → advanced program n core ≡ Some new → DidMore n core new }
    ensures joined { (program : List Instr) (m n : ℕ) (core : CoreState)
        → advanced program (m + n) core
        ≡ option_and_then (advanced program n) (advanced program m core) }

    // The register of a load, a swap and an add receives the word that was read.
    ensures received { (program : List Instr) (core : CoreState) (rd address word : ℕ)
        → next_of program core ≡ Next.Load rd address
        → loaded program word core ≡ with_result rd word core }
    ensures swapped { (program : List Instr) (core : CoreState) (rd address value word : ℕ)
        → next_of program core ≡ Next.Swap rd address value
        → loaded program word core ≡ with_result rd word core }
    ensures added { (program : List Instr) (core : CoreState) (rd address value word : ℕ)
        → next_of program core ≡ Next.Add rd address value
        → loaded program word core ≡ with_result rd word core }
{}
