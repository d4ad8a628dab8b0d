// The pushes of an object, as a file has them, and what stands before them.
ghost use Rattle.std.specs.Prelude.{◌≡◌, ◌<◌, map, nat_eq, MatchResult};
ghost use Rattle.std.specs.Cmp.Lexicographic.{pointwise};
ghost use Rattle.faults.specs.Answers.{IfFault};
ghost use Rattle.faults.specs.declared.refused.Refused.TheVariants.{Fault};
ghost use Rattle.segment_file.specs.declared.fault.ObjectRule.TheVariants.{Form};
ghost use Rattle.segment_file.specs.Files.{push_fields, mark_of_objects};
ghost use Rattle.segment_file.specs.Objects.{push_said};
ghost use Rattle.segment_file.specs.ReadFields.{AreRead, BeginsFile, IsFieldRead, IsRead, each_push, head_fields, is_tenant, judged};
ghost use Rattle.segment_file.specs.Reading.{Stopped, Took};

use crate::reader::Reader;
use crate::texts::content;
use crate::{ObjectFault, ObjectRule};
use faults::Refused;
use profile_model::{Push, Tenant, wrong_tenant_byte};
use std::alloc::Global;

/// How a file of this layout begins.
const MARK: &[u8] = b"PYO0";

impl<'b> Reader<'b> {
    // The numbers of the first push and of the one behind the last.
    pub(crate) fn numbers(&mut self) -> Result<(u64, u64), Refused<ObjectFault>>
        ensures { MatchResult result
            (λ numbers. (numbers.0 < numbers.1) × Took (head_fields mark_of_objects numbers.0 numbers.1) self.old.cursor self.new.cursor)
            (IfFault (Stopped BeginsFile self.old.cursor)) }
    {
        let at = self.cursor.at();
        let mark = self.cursor.mark()?;
        if !is_mark(mark) {
            return Err(form(at));
        }
        let lo = self.cursor.eight()?;
        let at = self.cursor.at();
        let hi = self.cursor.eight()?;
        if hi <= lo {
            return Err(form(at));
        }
        Ok((lo, hi))
    }

    pub(crate) fn pushes(
        &mut self,
        alloc: Global,
        count: u64,
    ) -> Result<Vec<Push>, Refused<ObjectFault>>
        ensures { AreRead count each_push (λ pushes. map push_said pushes.items) self.old.cursor self.new.cursor result }
    {
        let mut pushes = Vec::new(alloc);
        for _ in 0..count {
            let push = self.push(alloc)?;
            pushes.push(push)?;
        }
        Ok(pushes)
    }

    fn push(&mut self, alloc: Global) -> Result<Push, Refused<ObjectFault>>
        ensures { IsRead push_fields push_said self.old.cursor self.new.cursor result }
    {
        let tenant = self.tenant(alloc)?;
        let profiles = self.profiles(alloc)?;
        Ok(Push { tenant, profiles })
    }

    fn tenant(&mut self, alloc: Global) -> Result<Tenant, Refused<ObjectFault>>
        ensures { IsFieldRead (judged is_tenant) self.old.cursor self.new.cursor result }
    {
        let at = self.cursor.at();
        let bytes = self.cursor.text()?;
        if !is_tenant(bytes) {
            return Err(content(at));
        }
        // These are a tenant's bytes, so only memory can be wanting.
        match Tenant::read(alloc, bytes) {
            Ok(tenant) => Ok(tenant),
            Err(_) => Err(Refused::Memory),
        }
    }
}

fn is_mark(mark: &[u8]) -> bool
    ensures { result ≡ pointwise nat_eq mark.now mark_of_objects }
{
    mark == MARK
}

fn is_tenant(bytes: &[u8]) -> bool
    ensures { result ≡ is_tenant bytes.now }
{
    wrong_tenant_byte(bytes).is_none()
}

// The fault of bytes that are no file of an object.
pub(crate) fn form(at: usize) -> Refused<ObjectFault>
    ensures { result ≡ Fault (record { rule = Form; at = at }) }
{
    Refused::Fault(ObjectFault {
        rule: ObjectRule::Form,
        at,
    })
}
