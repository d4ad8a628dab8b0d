// Laws of JSON pushes. Each function states one, and does nothing.
ghost use Rattle.std.specs.Prelude.{◌≡◌, ℕ, List, Result};
ghost use Rattle.profile_model.specs.declared.push.Push.{Push};
ghost use Rattle.json_push.specs.Laws.{IsAnswer};
ghost use Rattle.json_push.specs.declared.fault.PushFault.{PushFault};

/// A body has one answer: the push, or one fault in one place. Want of memory alone may stand for it.
pub fn one_answer()
    ensures { (tenant body : List ℕ) (moment : ℕ) (first second : Result Push PushFault) →
        IsAnswer tenant body moment first → IsAnswer tenant body moment second → first ≡ second }
{}
