// The routes, and the method of each.
ghost use Rattle.std.specs.Prelude.{◌≡◌};
ghost use Rattle.routes.specs.Paths.{method_of, takes};

use http_session::{Allow, Method};

/// A route of the server.
#[derive(Clone, Copy, Debug, Drop, PartialEq, Eq)]
pub enum Route {
    /// `POST /ingest`
    Ingest,
    /// `POST /push.v1.PusherService/Push`
    Push,
    /// `GET /pyroscope/render`
    Render,
    /// `GET /pyroscope/render-diff`
    RenderDiff,
    /// The others are `POST /querier.v1.QuerierService/` and a method's name.
    Diff,
    ProfileStats,
    LabelNames,
    LabelValues,
    ProfileTypes,
    MergeProfile,
    MergeStacktraces,
    SelectSeries,
    Series,
}

impl Route {
    /// The one method that the route has.
    pub fn method(self) -> Allow
        ensures { result ≡ method_of self }
    {
        match self {
            Route::Render | Route::RenderDiff => Allow::Get,
            _ => Allow::Post,
        }
    }

    /// Whether a request with this method is the route's.
    pub fn takes(self, method: Method) -> bool
        ensures { result ≡ takes (method_of self) method }
    {
        match self.method() {
            Allow::Get => method == Method::Get,
            Allow::Post => method == Method::Post,
        }
    }
}

/// What a method and a path name.
#[derive(Clone, Copy, Debug, Drop, PartialEq, Eq)]
pub enum Found {
    Route(Route),
    /// The path is a route's, which has this method alone.
    WrongMethod(Allow),
    NoRoute,
}
