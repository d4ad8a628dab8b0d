//! What no clause says: that the router is made with ample memory.
use crate::{Found, Route, Routes};
use http_session::{Allow, Method};
use std::test::Fail;

const TABLE: [(Allow, &str, Route); 13] = [
    (Allow::Post, "/ingest", Route::Ingest),
    (Allow::Post, "/push.v1.PusherService/Push", Route::Push),
    (Allow::Get, "/pyroscope/render", Route::Render),
    (Allow::Get, "/pyroscope/render-diff", Route::RenderDiff),
    (Allow::Post, "/querier.v1.QuerierService/Diff", Route::Diff),
    (
        Allow::Post,
        "/querier.v1.QuerierService/GetProfileStats",
        Route::ProfileStats,
    ),
    (
        Allow::Post,
        "/querier.v1.QuerierService/LabelNames",
        Route::LabelNames,
    ),
    (
        Allow::Post,
        "/querier.v1.QuerierService/LabelValues",
        Route::LabelValues,
    ),
    (
        Allow::Post,
        "/querier.v1.QuerierService/ProfileTypes",
        Route::ProfileTypes,
    ),
    (
        Allow::Post,
        "/querier.v1.QuerierService/SelectMergeProfile",
        Route::MergeProfile,
    ),
    (
        Allow::Post,
        "/querier.v1.QuerierService/SelectMergeStacktraces",
        Route::MergeStacktraces,
    ),
    (
        Allow::Post,
        "/querier.v1.QuerierService/SelectSeries",
        Route::SelectSeries,
    ),
    (
        Allow::Post,
        "/querier.v1.QuerierService/Series",
        Route::Series,
    ),
];

#[test]
fn each_route_is_found_by_its_path_with_its_method_alone(rt: HostRuntime) -> Result<(), Fail> {
    let routes = Routes::new(rt.alloc())?;
    for (allow, path, route) in TABLE {
        let path = path.as_bytes();
        let (own, other) = match allow {
            Allow::Get => (Method::Get, Method::Post),
            Allow::Post => (Method::Post, Method::Get),
        };
        assert!(rt; routes.find(own, path) == Found::Route(route));
        assert!(rt; routes.find(other, path) == Found::WrongMethod(allow));
        assert!(rt; routes.find(Method::Other, path) == Found::WrongMethod(allow));
        assert!(rt; route.method() == allow);
        assert!(rt; route.takes(own) && !route.takes(other));
    }
    Ok(())
}

#[test]
fn no_other_path_is_a_route(rt: HostRuntime) -> Result<(), Fail> {
    let routes = Routes::new(rt.alloc())?;
    let others: [&[u8]; 9] = [
        b"",
        b"/",
        b"/nothing",
        b"/ingest/",
        b"/Ingest",
        b"/pyroscope",
        b"/pyroscope/render-",
        b"/querier.v1.QuerierService/",
        b"/ingest\xff",
    ];
    for path in others {
        assert!(rt; routes.find(Method::Post, path) == Found::NoRoute);
        assert!(rt; routes.find(Method::Get, path) == Found::NoRoute);
    }
    Ok(())
}
