//! What holds of all records of an index.
ghost use Rattle.metastore_index.specs.Laws.{NoneComeToNothing, OneMoreComes, OneMoreBodyComes, LiveOnesDivide, LiveOnesWereTaken, IdsRise, EndMoves, EachIsHeldOnce, OthersStay, LiveOnesCover, LaterIsHigher, LiveOneIsHighest, AtMostFourHold, OneIndex, OneIndexOfBodies, NextIsTaken, BoundariesStay, OneRun, OneReading, EachBodyReads, FrontComes, LevelsStandTogether};

/// What records come to, each taken in turn. It does nothing: its clauses are the laws.
pub fn records_taken_in_turn()
    ensures none { NoneComeToNothing }
    ensures one_more { OneMoreComes }
    ensures bodies { OneMoreBodyComes }
    ensures divide { LiveOnesDivide }
    ensures taken { LiveOnesWereTaken }
    ensures ids { IdsRise }
    ensures end { EndMoves }
    ensures boundaries { BoundariesStay }
{}

/// Which entries hold a push, before a record and after it, and over all records. It does nothing: its clauses are the
/// laws.
pub fn holders_of_a_push()
    ensures once { EachIsHeldOnce }
    ensures others { OthersStay }
    ensures live { LiveOnesCover }
    ensures higher { LaterIsHigher }
    ensures highest { LiveOneIsHighest }
    ensures four { AtMostFourHold }
{}

/// Records come to one index, whoever reads them, and runs of live entries over the same pushes have one level. It does
/// nothing: its clauses are the laws.
pub fn one_index()
    ensures one { OneIndex }
    ensures bodies { OneIndexOfBodies }
    ensures next { NextIsTaken }
    ensures reading { OneReading }
    ensures each { EachBodyReads }
    ensures front { FrontComes }
    ensures run { OneRun }
{}

/// The entries of one level have those of higher ones before them, and those of lower ones behind them. It does nothing:
/// its clause is the law.
pub fn levels_of_entries()
    ensures { LevelsStandTogether }
{}
