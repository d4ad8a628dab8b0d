// The profiles of a push, as a file has them.
ghost use Rattle.std.specs.Prelude.{◌≡◌, map};
ghost use Rattle.segment_file.specs.Files.{profile_fields};
ghost use Rattle.segment_file.specs.Objects.{profile_said};
ghost use Rattle.segment_file.specs.ReadFields.{AreRead, IsFieldRead, IsRead, count_field, each_profile, few_profiles, is_part, judged, kind_fields, kind_said, list_fields, time_field};

use crate::ObjectFault;
use crate::reader::Reader;
use crate::texts::content;
use faults::Refused;
use profile_model::{MAX_PROFILES, Name, Profile, ProfileType, Profiles};
use std::alloc::Global;

impl<'b> Reader<'b> {
    pub(crate) fn profiles(&mut self, alloc: Global) -> Result<Profiles, Refused<ObjectFault>>
        ensures { IsRead (list_fields few_profiles each_profile) (map profile_said) self.old.cursor self.new.cursor result }
    {
        let count = self.profiles_count()?;
        let profiles = self.counted_profiles(alloc, count)?;
        Ok(Profiles::from_vec(profiles))
    }

    fn profiles_count(&mut self) -> Result<u32, Refused<ObjectFault>>
        ensures { IsFieldRead (count_field few_profiles) self.old.cursor self.new.cursor result }
    {
        let at = self.cursor.at();
        let count = self.cursor.four()?;
        if count as usize > MAX_PROFILES {
            return Err(content(at));
        }
        Ok(count)
    }

    fn counted_profiles(
        &mut self,
        alloc: Global,
        count: u32,
    ) -> Result<Vec<Profile>, Refused<ObjectFault>>
        ensures { AreRead count each_profile (λ profiles. map profile_said profiles.items) self.old.cursor self.new.cursor result }
    {
        let mut profiles = Vec::new(alloc);
        for _ in 0..count {
            let profile = self.profile(alloc)?;
            profiles.push(profile)?;
        }
        Ok(profiles)
    }

    fn profile(&mut self, alloc: Global) -> Result<Profile, Refused<ObjectFault>>
        ensures { IsRead profile_fields profile_said self.old.cursor self.new.cursor result }
    {
        let labels = self.labels(alloc)?;
        let kind = self.kind(alloc)?;
        let time_ms = self.time()?;
        let values = self.samples(alloc)?;
        Ok(Profile {
            labels,
            kind,
            time_ms,
            values,
        })
    }

    fn kind(&mut self, alloc: Global) -> Result<ProfileType, Refused<ObjectFault>>
        ensures { IsRead kind_fields kind_said self.old.cursor self.new.cursor result }
    {
        let name = self.part(alloc)?;
        let sample_type = self.part(alloc)?;
        let sample_unit = self.part(alloc)?;
        let period_type = self.part(alloc)?;
        let period_unit = self.part(alloc)?;
        Ok(ProfileType {
            name,
            sample_type,
            sample_unit,
            period_type,
            period_unit,
        })
    }

    fn part(&mut self, alloc: Global) -> Result<Name, Refused<ObjectFault>>
        ensures { IsFieldRead (judged is_part) self.old.cursor self.new.cursor result }
    {
        let at = self.cursor.at();
        let part = self.cursor.text()?;
        self.texts.kept(alloc, part, at, is_part(part))
    }

    fn time(&mut self) -> Result<u64, Refused<ObjectFault>>
        ensures { IsFieldRead time_field self.old.cursor self.new.cursor result }
    {
        Ok(self.cursor.eight()?)
    }
}

// A part of a type holds no colon.
fn is_part(part: &[u8]) -> bool
    ensures { result ≡ is_part part.now }
{
    part.iter().all(|b| *b != b':')
}
