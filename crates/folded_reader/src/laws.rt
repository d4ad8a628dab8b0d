// Laws of folded text. Each function states one, and does nothing.
ghost use Rattle.std.specs.Prelude.{◌≡◌, ℕ, List, Result};
ghost use Rattle.profile_model.specs.Sums.{Sample};
ghost use Rattle.folded_reader.specs.declared.fault.FoldedFault.{FoldedFault};
ghost use Rattle.folded_reader.specs.Folded.{IsReadFolded, IsReadLines};
ghost use Rattle.folded_reader.specs.Laws.{IsReadBack};

/// What `write_folded` writes of sums whose names hold no `;` and no byte below 0x20 is read back to the same sums.
pub fn written_is_read_back()
    ensures { (sums : List Sample) → IsReadBack sums }
{}

/// A body has one answer: the sums, or one fault in one place.
pub fn one_answer()
    ensures folded { (body : List ℕ) (first second : Result (List Sample) FoldedFault) →
        IsReadFolded body first → IsReadFolded body second → first ≡ second }
    ensures lines { (body : List ℕ) (first second : Result (List Sample) FoldedFault) →
        IsReadLines body first → IsReadLines body second → first ≡ second }
{}
