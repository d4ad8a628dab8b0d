// Laws of selectors. Each function states one, and does nothing.
ghost use Rattle.std.specs.Prelude.{◌≡◌, ℕ, Bool, List, Result};
ghost use Rattle.selector.specs.Matching.{Matching};
ghost use Rattle.selector.specs.Read.{IsReadSelectorBy, IsReadQueryBy};
ghost use Rattle.selector.specs.Laws.{IsOneSelector, IsOneQuery};
ghost use Rattle.selector.specs.declared.fault.SelectorFault.{SelectorFault};
ghost use Rattle.selector.specs.declared.query.Query.{Query};

/// No text can be read in two ways.
pub fn one_meaning()
    ensures selector { (text : List ℕ) → IsOneSelector text }
    ensures query { (text : List ℕ) → IsOneQuery text }
{}

/// Where it is settled which patterns `regex` builds, a text has one answer: its matchers, or one fault in one place.
/// Want of memory alone may come in its place.
pub fn one_answer()
    ensures selector { (built : List ℕ → Bool) (text : List ℕ) (first second : Result (List Matching) SelectorFault) →
        IsReadSelectorBy built text first → IsReadSelectorBy built text second → first ≡ second }
    ensures query { (built : List ℕ → Bool) (text : List ℕ) (first second : Result Query SelectorFault) →
        IsReadQueryBy built text first → IsReadQueryBy built text second → first ≡ second }
{}
