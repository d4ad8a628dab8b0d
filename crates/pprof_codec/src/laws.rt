// Laws of reading a pprof. Each function states one, and does nothing.
ghost use Rattle.std.specs.Prelude.{◌≡◌, ℕ, List, Result, Vec};
ghost use Rattle.std.specs.declared.alloc.Global.{Global};
ghost use Rattle.profile_model.specs.declared.profile.Profile.{Profile};
ghost use Rattle.pprof_codec.specs.Laws.{told};
ghost use Rattle.pprof_codec.specs.Read.{IsReadPprof};
ghost use Rattle.pprof_codec.specs.declared.base.Base.{Base};
ghost use Rattle.pprof_codec.specs.declared.fault.PprofFault.{PprofFault};

/// Bytes have one answer: the profiles, or one fault in one place.
pub fn one_answer()
    ensures { (base : Base) (bytes : List ℕ) (first second : Result (Vec Profile Global) PprofFault) →
        IsReadPprof base bytes first → IsReadPprof base bytes second → told first ≡ told second }
{}
