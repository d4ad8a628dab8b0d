// What an operator settles for a whole run, and what is made once for it.
use routes::Routes;

/// How requests are read.
#[derive(Drop)]
pub struct Config {
    /// Every request's tenant is `anonymous`, whatever its header says.
    pub single_tenant: bool,
    pub routes: Routes,
}
