// What holds of all verdicts.
ghost use Rattle.tenant_books.specs.Laws.{EachIsJudged, OneJudgement};

/// Pushes that ask over a history have one list of verdicts. It does nothing: its clause is the law.
pub fn one_judgement()
    ensures one { OneJudgement }
{}

/// Pushes that ask over a history have a list of verdicts, whatever the history and the limits are. It does nothing: its
/// clause is the law.
pub fn each_is_judged()
    ensures each { EachIsJudged }
{}
