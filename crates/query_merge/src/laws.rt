// What holds of all answers.
ghost use Rattle.query_merge.specs.Laws.{OneQuery, OneSeries, OneSpan, OneType, PartsAreRows, PartsInAnyOrder, PartsStayBounded, PointsAreFirst, RowsInAnyOrder, SeriesInAnyOrder, SetsInAnyOrder, SpanInAnyOrder, StacksInAnyOrder, TypesInAnyOrder};

/// In whatever order rows and parts come, they come to the same. It does nothing: its clauses are the law.
pub fn rows_in_any_order()
    ensures parts { PartsInAnyOrder }
    ensures rows { RowsInAnyOrder }
    ensures span { SpanInAnyOrder }
    ensures types { TypesInAnyOrder }
    ensures sets { SetsInAnyOrder }
    ensures stacks { StacksInAnyOrder }
    ensures series { SeriesInAnyOrder }
{}

/// The parts of a tenant's rows have room in a merge and at points, one after another. It does nothing: its clause is the law.
pub fn parts_stay_bounded()
    ensures { PartsStayBounded }
{}

/// Parts that follow one another up to the history's end have the tenant's rows of the ask, all and in order. It does nothing:
/// its clause is the law.
pub fn parts_are_rows()
    ensures { PartsAreRows }
{}

/// Rows have one span and one list of series, and texts of types tell the types, so what the methods here answer is the only
/// right answer. It does nothing: its clauses are the law.
pub fn answers_are_told_once()
    ensures span { OneSpan }
    ensures series { OneSeries }
    ensures types { OneType }
{}

/// A profile counts at the first point that isn't before its time. It does nothing: its clause is the law.
pub fn points_are_first()
    ensures { PointsAreFirst }
{}

/// Queries that were read of one text are one query, so their merges may be joined. It does nothing: its clause is the law.
pub fn one_query_of_a_text()
    ensures { OneQuery }
{}
