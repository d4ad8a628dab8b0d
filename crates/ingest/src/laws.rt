// Laws of requests to ingest. Each function states one, and does nothing.
ghost use Rattle.std.specs.Prelude.{◌≡◌, ℕ, List, Result};
ghost use Rattle.profile_model.specs.declared.push.Push.{Push};
ghost use Rattle.ingest.specs.Forms.{Parameters};
ghost use Rattle.ingest.specs.Laws.{IsAnswer};
ghost use Rattle.ingest.specs.declared.fault.IngestFault.{IngestFault};

/// Parameters and a body have one answer, whatever the body's format: the push, or one fault in one place.
pub fn one_answer()
    ensures { (tenant : List ℕ) (parameters : Parameters) (body : List ℕ) (moment : ℕ) (first second : Result Push IngestFault) →
        IsAnswer tenant parameters body moment first → IsAnswer tenant parameters body moment second → first ≡ second }
{}
