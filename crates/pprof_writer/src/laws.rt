// Laws of what is written. Each function states one, and does nothing.
ghost use Rattle.std.specs.Prelude.{◌≡◌, List, [], ◌∷◌, Ok, Result, Vec};
ghost use Rattle.std.specs.declared.alloc.Global.{Global};
ghost use Rattle.profile_model.specs.Sums.{Sample};
ghost use Rattle.profile_model.specs.declared.kind.ProfileType.{ProfileType};
ghost use Rattle.profile_model.specs.declared.profile.Profile.{Profile};
ghost use Rattle.pprof_message.specs.Read.{IsReadMessage};
ghost use Rattle.pprof_codec.specs.Profiles.{held_of};
ghost use Rattle.pprof_codec.specs.Read.{AreProfilesOf, IsReadPprof};
ghost use Rattle.pprof_codec.specs.declared.base.Base.{Base};
ghost use Rattle.pprof_codec.specs.declared.fault.PprofFault.{PprofFault};
ghost use Rattle.pprof_writer.specs.Laws.{AreReadable, IsReadAs, held_again};
ghost use Rattle.pprof_writer.specs.Messages.{AreHeld, said};
ghost use Rattle.pprof_writer.specs.Once.{AreFramesOf, AreTextsOf};
ghost use Rattle.pprof_writer.specs.Tables.{frames_in, texts_of};
ghost use Rattle.pprof_writer.specs.Written.{written_pprof};

/// What `write_pprof` writes is a whole message, which says the lists of the profile.
pub fn written_is_a_message()
    ensures { (kind : ProfileType) (sums : List Sample) → AreHeld (frames_in sums) (texts_of kind (frames_in sums)) sums
        → IsReadMessage (written_pprof kind sums) (Ok (said (frames_in sums) (texts_of kind (frames_in sums)) kind sums)) }
{}

/// What `write_pprof` writes is read with any base as one profile of the same sums and the same last four parts of
/// the type, where it weighs no more than a push may and the parts hold no mark: a right answer is such a profile, and each
/// such profile is a right answer.
pub fn written_is_read_back()
    ensures answers { (base : Base) (kind : ProfileType) (sums : List Sample) → AreReadable base kind sums
        → (answer : Result (Vec Profile Global) PprofFault) → IsReadPprof base (written_pprof kind sums) answer
        → IsReadAs (held_again base kind sums) answer }
    ensures profile { (base : Base) (kind : ProfileType) (sums : List Sample) → AreReadable base kind sums
        → (profile : Profile) → held_of profile ≡ held_again base kind sums → AreProfilesOf base (written_pprof kind sums) (profile ∷ []) }
{}

/// Each frame and each text stands once in what `write_pprof` writes. Ids are counted, so a location and a function do too.
pub fn names_stand_once()
    ensures frames { (sums : List Sample) → AreFramesOf sums (frames_in sums) }
    ensures texts { (kind : ProfileType) (sums : List Sample) → AreTextsOf kind (frames_in sums) (texts_of kind (frames_in sums)) }
{}
