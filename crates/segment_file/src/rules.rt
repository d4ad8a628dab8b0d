// The rules that pushes keep by their types. Each type's rules are known of a value once it is looked at, so these look
// at all that pushes have.
ghost use Rattle.std.specs.List.{All};
ghost use Rattle.std.specs.Map.{keys_of, values_of};
ghost use Rattle.std.specs.Str.{IsUtf8};
ghost use Rattle.profile_model.specs.LabelSets.{AreLabels};
ghost use Rattle.profile_model.specs.ReadKinds.{parts_in};
ghost use Rattle.profile_model.specs.Stacks.{IsStack};
ghost use Rattle.profile_model.specs.Sums.{AreSums};
ghost use Rattle.segment_file.specs.Objects.{IsProfile, IsPush};

use profile_model::{LabelSet, Name, Profile, ProfileType, Push, Stack, StackSums};

pub(crate) fn look_at_pushes(pushes: &[Push])
    ensures { All IsPush pushes.now }
{
    for push in pushes {
        look_at_push(push);
    }
}

fn look_at_push(push: &Push)
    ensures { IsPush push.now }
{
    let _tenant = push.tenant.as_bytes();
    look_at_profiles(push.profiles.as_slice());
}

fn look_at_profiles(profiles: &[Profile])
    ensures { All IsProfile profiles.now }
{
    for profile in profiles {
        look_at_profile(profile);
    }
}

fn look_at_profile(profile: &Profile)
    ensures { IsProfile profile.now }
{
    look_at_labels(&profile.labels);
    look_at_kind(&profile.kind);
    let _time = profile.time_ms;
    look_at_values(&profile.values);
}

fn look_at_labels(labels: &LabelSet)
    ensures ascending { AreLabels labels.now }
    ensures names { All IsUtf8 (keys_of labels.now) }
    ensures values { All IsUtf8 (values_of labels.now) }
{
    let pairs = labels.pairs();
    for label in pairs {
        look_at_label(label);
    }
}

fn look_at_label(label: &(Name, Name))
    ensures name { IsUtf8 label.now.0 }
    ensures value { IsUtf8 label.now.1 }
{
    let _name = label.0.as_bytes();
    let _value = label.1.as_bytes();
}

fn look_at_kind(kind: &ProfileType)
    ensures { All IsUtf8 (parts_in kind.now) }
{
    let _name = kind.name.as_bytes();
    let _sample_type = kind.sample_type.as_bytes();
    let _sample_unit = kind.sample_unit.as_bytes();
    let _period_type = kind.period_type.as_bytes();
    let _period_unit = kind.period_unit.as_bytes();
}

fn look_at_values(values: &StackSums)
    ensures sums { AreSums values.now }
    ensures stacks { All IsStack (keys_of values.now) }
    ensures frames { All (All IsUtf8) (keys_of values.now) }
{
    for (stack, _value) in values.iter() {
        look_at_stack(stack);
    }
}

fn look_at_stack(stack: &Stack)
    ensures limits { IsStack stack.now }
    ensures frames { All IsUtf8 stack.now }
{
    let frames = stack.frames();
    for frame in frames {
        let _frame = frame.as_bytes();
    }
}
