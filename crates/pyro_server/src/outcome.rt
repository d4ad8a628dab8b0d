// The top call.
ghost use Rattle.std.specs.Prelude.{◌≡◌, ◌≢◌, ◌↔◌, ◌⊎◌, [], true, map, string_bytes};
ghost use Rattle.link_trait.specs.Link.{Goes, Rose};
ghost use Rattle.pyro_server.specs.Served.{IsServedInTurn, usual_facts};
ghost use Rattle.pyro_server.specs.ServedAt.{IsServedAt};
ghost use Rattle.pyro_server.specs.Statuses.{IsUnstarted, status_of};
ghost use Rattle.pyro_server.specs.declared.ending.Ending.{Ending};
ghost use Rattle.pyro_server.specs.Words.{IsSession};

use crate::session::run_session;
use crate::status::ExitStatus;
use crate::words::{Command, command_of};
use link_trait::Link;
use profile_model::Push;
use request_meaning::Config;
use routes::Routes;
use std::alloc::Global;

/// How a run ended, with all that was handed in.
#[derive(Drop)]
pub struct Outcome<D, L, F, E> {
    pub status: ExitStatus,
    pub disk: D,
    pub stdio: L,
    pub doors: F,
    pub finish: E,
    /// The accepted pushes, in order.
    pub history: Vec<Push>,
}

/// Does what the words after the program's name ask for. What isn't used is given back as it was.
pub fn run<D, L: Link, F, E, G>(
    alloc: Global,
    words: &[String],
    disk: D,
    stdio: L,
    doors: F,
    finish: E,
    _gate: &G,
) -> Outcome<D, L, F, E>
    requires open { L.is_open stdio ≡ true }
    // What the one word `session` gives is replies over fronts of one history, which is handed back, to all of the
    // requests that come, up to an ending that the status tells; but where memory ran out at once, nothing was taken
    // or given.
    ensures served { IsSession (map string_bytes words.now) → IsUnstarted stdio result.stdio result.history.items result.status
        ⊎ ((ending : Ending) × (result.status ≡ status_of ending)
        × Goes (IsServedAt usual_facts result.history.items [] ending) (L.told stdio) (L.told result.stdio)) }
    // More closely, each is over the history that the requests before it left.
    ensures in_turn { IsSession (map string_bytes words.now) → IsUnstarted stdio result.stdio result.history.items result.status
        ⊎ ((ending : Ending) × (result.status ≡ status_of ending)
        × Goes (IsServedInTurn usual_facts result.history.items ending) (L.told stdio) (L.told result.stdio)) }
    // The stream's count of faults rises where the status says so, and only there.
    ensures cause { result.status ≡ ExitStatus.StreamFault → Rose (L.faults stdio) (L.faults result.stdio) }
    ensures quiet { result.status ≢ ExitStatus.StreamFault → L.faults result.stdio ≡ L.faults stdio }
    ensures open { result.status ≢ ExitStatus.StreamFault → L.is_open result.stdio ≡ true }

    // Other words are no command, and do nothing.
    ensures no_command { (result.status ≡ ExitStatus.NoCommand) ↔ (¬ (IsSession (map string_bytes words.now))) }
    ensures untouched { ¬ (IsSession (map string_bytes words.now)) → (result.stdio ≡ stdio) × (result.history.items ≡ []) }

    ensures given_back { (result.disk ≡ disk) × (result.doors ≡ doors) × (result.finish ≡ finish) }
{
    let Some(Command::Session) = command_of(words) else {
        return unserved(alloc, ExitStatus::NoCommand, disk, stdio, doors, finish);
    };
    let Ok(routes) = Routes::new(alloc) else {
        return unserved(alloc, ExitStatus::NoMemory, disk, stdio, doors, finish);
    };
    let config = Config {
        single_tenant: false,
        routes,
    };
    let ended = run_session(alloc, disk, stdio, config);
    Outcome {
        status: ended.ending.status(),
        disk: ended.disk,
        stdio: ended.stdio,
        doors,
        finish,
        history: ended.history,
    }
}

// All that was handed in, as it was.
fn unserved<D, L, F, E>(
    alloc: Global,
    status: ExitStatus,
    disk: D,
    stdio: L,
    doors: F,
    finish: E,
) -> Outcome<D, L, F, E>
    ensures status { result.status ≡ status }
    ensures given_back { (result.disk ≡ disk) × (result.stdio ≡ stdio) × (result.doors ≡ doors) × (result.finish ≡ finish) }
    ensures nothing { result.history.items ≡ [] }
{
    Outcome {
        status,
        disk,
        stdio,
        doors,
        finish,
        history: Vec::new(alloc),
    }
}
