ghost use Rattle.std.specs.Prelude.{◌≡◌};
ghost use Rattle.chip_model.specs.Witness.{in_sequence};
ghost use Rattle.value_laws.specs.Sequences.{AllPairs, Differs};

use report_text::Access;

/// Puts accesses in sequence: by time, then by tile, then by number. It takes no memory. No instruction of a tile may have two of
/// them, so no two have the same key.
pub fn put_in_sequence(accesses: &mut [Access])
    requires { AllPairs Differs accesses.old }
    ensures { accesses.new ≡ in_sequence accesses.old }
{
    accesses.sort_unstable_by_key(|access| (access.time, access.tile, access.number));
}
