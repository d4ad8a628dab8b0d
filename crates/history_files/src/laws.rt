//! What holds of all files and their histories.
ghost use Rattle.history_files.specs.Laws.{AsLongAsEntriesSay, BlamedStandForNone, OneHistory, OneIsBlamed, OneOrBlamed, PushesAreAdded, RunsLeaveTheHistory};

/// Files stand for one history, or for none by the fault of one file. It does nothing: its clauses are the laws.
pub fn files_stand_for_one_history()
    ensures one { OneHistory }
    ensures long { AsLongAsEntriesSay }
    ensures none { BlamedStandForNone }
    ensures some { OneOrBlamed }
    ensures blamed { OneIsBlamed }
{}

/// What an entry makes of the history. It does nothing: its clauses are the laws.
pub fn entries_turn_histories()
    ensures pushes { PushesAreAdded }
    ensures runs { RunsLeaveTheHistory }
{}
