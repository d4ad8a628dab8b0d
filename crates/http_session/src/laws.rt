//! What holds of every reading of a connection's bytes.
ghost use Rattle.http_session.specs.TakesLaws.{WholeStays, WholeIsOne, RequestsAreOne, EndingsAgree, TakenOfAll, TakesStay, EndedOfAll, RefusedOfAll};

/// The requests of a connection's bytes are one list, and stay so however much more comes.
pub fn one_reading()
    ensures stays { WholeStays }
    ensures one { WholeIsOne }
    ensures requests { RequestsAreOne }
    ensures endings { EndingsAgree }
    ensures stay { TakesStay }
    ensures of_all { TakenOfAll }
    ensures ended { EndedOfAll }
    ensures refused { RefusedOfAll }
{}
