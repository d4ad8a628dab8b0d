//! What holds of all merged objects.
ghost use Rattle.block_merge.specs.Laws.{MergedIsObject, MergedStands, NextFollows, NoLonger, OneHead, StepsAreOne};

/// What the object of the pushes of several is. It does nothing: its clauses are the laws.
pub fn merged_objects()
    ensures next { NextFollows }
    ensures object { MergedIsObject }
    ensures history { MergedStands }
    ensures steps { StepsAreOne }
{}

/// How long its file is beside theirs. It does nothing: its clauses are the laws.
pub fn files_of_merged_objects()
    ensures head { OneHead }
    ensures no_longer { NoLonger }
{}
