// What the sums of samples are.
ghost use Rattle.std.specs.Prelude.{◌≡◌, List, ℕ};
ghost use Rattle.profile_model.specs.SumLaw.{AreSumsOf, value_in};
ghost use Rattle.profile_model.specs.Sums.{Sample, sums_of};

/// Adding samples in turn gives each stack its values of all samples, and nothing else does:
/// so the order of the samples doesn't matter. It does nothing: its clauses are the law.
pub fn sums_are_exact()
    ensures sums { (samples : List Sample) → AreSumsOf samples (sums_of samples) }
    ensures no_other { (samples : List Sample) → (sums : List Sample) → AreSumsOf samples sums → sums ≡ sums_of samples }
    ensures any_order { (samples : List Sample) → (others : List Sample) → ((stack : List (List ℕ)) → value_in samples stack ≡ value_in others stack) → sums_of samples ≡ sums_of others }
{}
