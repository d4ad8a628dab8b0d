// The command line.
ghost use Rattle.std.specs.Prelude.{MatchOption, map, string_bytes};
ghost use Rattle.pyro_server.specs.Words.{IsSession};

/// What the words ask for.
#[derive(Clone, Copy, Debug, PartialEq, Eq)]
pub(crate) enum Command {
    Session,
}

/// The command of these words, if they are one: `session`, and nothing else.
pub(crate) fn command_of(words: &[String]) -> Option<Command>
    ensures { MatchOption result (¬ (IsSession (map string_bytes words.now))) (λ _. IsSession (map string_bytes words.now)) }
{
    let [only] = words else {
        return None;
    };
    if only.as_str() == "session" {
        Some(Command::Session)
    } else {
        None
    }
}
