// How a push was written.

/// Which route a push came by.
#[derive(Clone, Copy, Debug, PartialEq, Eq)]
pub enum PushForm {
    /// `POST /ingest`
    Ingest,
    /// `POST /push.v1.PusherService/Push`
    Json,
}
