// The router, made once.
ghost use Rattle.std.specs.Prelude.{◌≡◌, IfOk, OnOk, Ok, option_map};
ghost use Rattle.matchit.specs.Route.{parse_route};
ghost use Rattle.matchit.specs.Router.{InsertsRead};
ghost use Rattle.routes.specs.Paths.{IsRouter, found_at, route_in, table};

use crate::route::{Found, Route};
use http_session::Method;
use matchit::Router;
use std::alloc::{AllocError, Global};
use std::marker::Model;

/// The routes of the server, by their paths. There is one such value.
#[derive(Drop)]
pub struct Routes {
    router: Router<Route>,
}

impl Model for Routes {
    ghost use Rattle.routes.specs.Paths.{IsRouter};

    ghost Value = { Unit {0} };

    ghost view = { λ r. tt };

    ghost invariant = { λ r. IsRouter r.router };
}

impl Routes {
    pub fn new(alloc: Global) -> Result<Routes, AllocError> {
        Ok(Routes {
            router: new_router(alloc)?,
        })
    }

    /// The route of a method and a path. It takes no memory.
    pub fn find(&self, method: Method, path: &[u8]) -> Found
        ensures { result ≡ found_at method path.now }
    {
        match self.route_of(path) {
            Some(route) if route.takes(method) => Found::Route(route),
            Some(route) => Found::WrongMethod(route.method()),
            None => Found::NoRoute,
        }
    }

    fn route_of(&self, path: &[u8]) -> Option<Route>
        ensures { result ≡ route_in table path.now }
    {
        match str::from_utf8(path) {
            Ok(text) => look_up(&self.router, text),
            Err(_) => None,
        }
    }
}

fn new_router(alloc: Global) -> Result<Router<Route>, AllocError>
    ensures { IfOk result IsRouter }
{
    let mut router = Router::new(alloc);
    add(&mut router, "/ingest", Route::Ingest)?;
    add(&mut router, "/push.v1.PusherService/Push", Route::Push)?;
    add(&mut router, "/pyroscope/render", Route::Render)?;
    add(&mut router, "/pyroscope/render-diff", Route::RenderDiff)?;
    add(&mut router, "/querier.v1.QuerierService/Diff", Route::Diff)?;
    add(
        &mut router,
        "/querier.v1.QuerierService/GetProfileStats",
        Route::ProfileStats,
    )?;
    add(
        &mut router,
        "/querier.v1.QuerierService/LabelNames",
        Route::LabelNames,
    )?;
    add(
        &mut router,
        "/querier.v1.QuerierService/LabelValues",
        Route::LabelValues,
    )?;
    add(
        &mut router,
        "/querier.v1.QuerierService/ProfileTypes",
        Route::ProfileTypes,
    )?;
    add(
        &mut router,
        "/querier.v1.QuerierService/SelectMergeProfile",
        Route::MergeProfile,
    )?;
    add(
        &mut router,
        "/querier.v1.QuerierService/SelectMergeStacktraces",
        Route::MergeStacktraces,
    )?;
    add(
        &mut router,
        "/querier.v1.QuerierService/SelectSeries",
        Route::SelectSeries,
    )?;
    add(
        &mut router,
        "/querier.v1.QuerierService/Series",
        Route::Series,
    )?;
    Ok(router)
}

fn add(router: &mut Router<Route>, path: &str, route: Route) -> Result<(), AllocError>
    ensures { OnOk result (InsertsRead (parse_route path.now) route router.old router.new (Ok tt)) }
{
    match router.insert(path, route) {
        Ok(()) => Ok(()),
        Err(_) => Err(AllocError),
    }
}

fn look_up(router: &Router<Route>, path: &str) -> Option<Route>
    requires { IsRouter router.now }
    ensures { result ≡ route_in table path.now }
{
    match router.at(path) {
        Ok(found) => Some(*found.value),
        Err(_) => None,
    }
}
