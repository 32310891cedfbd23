//! The routes, and what a path asks for.

ghost use Rattle.std.specs.Prelude.{◌≡◌, IfOk, OnOk, option_map};
ghost use Rattle.matchit.specs.Route.{parse_route};
ghost use Rattle.ghg_http.specs.Route.{IsAdmitted, behind, parts_of, path_of, routes, seen, target_of, with_route};

use matchit::{InsertError, Router};
use std::alloc::{AllocError, Global};

/// What a route serves.
#[derive(Clone, Copy, Debug, PartialEq, Eq)]
pub enum Route {
    /// `/submissions/ID`
    Submissions,
    /// `/tables/TABLE/YEAR`
    Tables,
}

/// What a path asks for.
#[derive(Clone, Copy, Debug)]
pub enum Target<'p> {
    Submission { id: &'p str },
    Table { table: &'p str, year: &'p str },
}

/// The router of the service. It fails only for want of memory.
pub fn routes(alloc: Global) -> Result<Router<Route>, AllocError>
    ensures { IfOk result (λ r. r ≡ routes) }
{
    let mut router = Router::new(alloc);
    add_route(&mut router, "/submissions/{id}", Route::Submissions)?;
    add_route(&mut router, "/tables/{table}/{year}", Route::Tables)?;
    Ok(router)
}

// Adds a route that reads well and conflicts with none that the router has.
fn add_route(router: &mut Router<Route>, path: &str, route: Route) -> Result<(), AllocError>
    requires { IsAdmitted (parse_route path.now) router.old }
    ensures { OnOk result (router.new ≡ with_route (parse_route path.now) route router.old) }
{
    match router.insert(path, route) {
        Ok(()) => Ok(()),
        Err(InsertError::OutOfMemory) => Err(AllocError),
        Err(_) => unreachable!(),
    }
}

// The text behind a prefix.
fn behind<'p>(prefix: &str, text: &'p str) -> Option<&'p str>
    ensures { option_map (λ t. t.now) result ≡ behind prefix.now text.now }
{
    text.strip_prefix(prefix)
}

// The parameters of a route's path.
fn parts_of(route: Route, path: &str) -> Option<Target<'_>>
    ensures { option_map seen result ≡ parts_of route path.now }
{
    match route {
        Route::Submissions => {
            let id = behind("/submissions/", path)?;
            Some(Target::Submission { id })
        }
        Route::Tables => {
            let (table, year) = behind("/tables/", path)?.split_once('/')?;
            Some(Target::Table { table, year })
        }
    }
}

/// What the path asks for, by the route that it matches.
#[tactic(auto, unfolding(crate::specs::Route::target_of))]
pub fn target_of<'p>(router: &Router<Route>, path: &'p str) -> Option<Target<'p>>
    requires { router.now ≡ routes }
    ensures { option_map seen result ≡ target_of path.now }
{
    match router.at(path) {
        Ok(found) => parts_of(*found.value, path),
        Err(_) => None,
    }
}

/// The path of a request target, which ends at a question mark.
pub fn path_of(target: &str) -> &str
    ensures { result.now ≡ path_of target.now }
{
    match target.split_once('?') {
        Some((path, _)) => path,
        None => target,
    }
}
