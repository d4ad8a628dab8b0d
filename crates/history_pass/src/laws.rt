// What holds of all meetings of a pass, and of a spine and its passes through all runs of the calls.
ghost use Rattle.history_pass.specs.Meetings.{MeetingsGrow};
ghost use Rattle.history_pass.specs.Worlds.{RunsGrow};

/// What a pass had at a meeting is a prefix of what it has at each later one, and its numbers never fall. It does
/// nothing: its clause is the law.
pub fn meetings_grow()
    ensures grow { MeetingsGrow }
{}

/// However the calls of a spine follow one another, no pass is ever above it, and what it and each pass had is a
/// prefix of what they have later, with numbers that never fall. It does nothing: its clause is the law.
pub fn runs_grow()
    ensures grow { RunsGrow }
{}
