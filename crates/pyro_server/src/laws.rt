// What holds of every connection that is served.
ghost use Rattle.pyro_server.specs.ServedLaws.{AmongOthersIsServed, AnswersAllInput, AnswersAreIsolated, AnswersTheFirst, FrontIsPrefix, HistoryGrows};
ghost use Rattle.pyro_server.specs.ServedLaws.{InTurnIsServed, IsNeverBoth, IsOneOrTheOther, KeepsAccount, KeepsItsPlace};
ghost use Rattle.pyro_server.specs.ServedLaws.{ReadsToTheEnd, RepliesAreIsolated, StaysServed};

/// The requests that a connection answers are those of all of its input, which is read to its end, or to a request
/// that closes it.
pub fn all_input_is_answered()
    ensures answers { AnswersAllInput }
    ensures first { AnswersTheFirst }
    ensures reads { ReadsToTheEnd }
{}

/// Each reply of a session is over a front of the history that it hands back, in which each push that was
/// told as kept stands at the place that it was told.
pub fn one_history()
    ensures grows { HistoryGrows }
    ensures place { KeepsItsPlace }
{}

/// A connection that is served in turn, by itself or among others, is served at the history that is left, and
/// at each later one.
pub fn served_at_later_histories()
    ensures in_turn { InTurnIsServed }
    ensures among { AmongOthersIsServed }
    ensures stays { StaysServed }
{}

/// Each reply is the one by definition, or an excused one, which keeps nothing.
pub fn defined_or_excused()
    ensures one { IsOneOrTheOther }
    ensures never_both { IsNeverBoth }
{}

/// What a request is told depends on the pushes of its own tenant alone, so a reply over a front of them is
/// one over a prefix of the history.
pub fn tenants_are_apart()
    ensures replies { RepliesAreIsolated }
    ensures answers { AnswersAreIsolated }
    ensures prefix { FrontIsPrefix }
{}

/// The history past a session's base holds just the pushes that were acknowledged, in the order of their requests.
pub fn account_of_pushes()
    ensures account { KeepsAccount }
{}
