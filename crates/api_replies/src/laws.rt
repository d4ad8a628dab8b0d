// What holds of every reply.
ghost use Rattle.api_replies.specs.ReplyLaws.{NeverBoth, ReplyIsNoFailure};

/// A reply is the one by definition or an excused one, and never both.
pub fn one_or_the_other()
    ensures no_failure { ReplyIsNoFailure }
    ensures never_both { NeverBoth }
{}
