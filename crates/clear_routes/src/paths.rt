//! The router over the table, and which path a target is.
ghost use Rattle.std.specs.Prelude.{◌≡◌, ◌≤◌, ℕ, List, length, map};
ghost use Rattle.std.specs.Prelude.{IfOk, IfErr, OnOk, IfSome, IfNone};
ghost use Rattle.std.specs.Str.{IsAscii};
ghost use Rattle.matchit.specs.Params.{walk};
ghost use Rattle.matchit.specs.declared.error.InsertError.TheVariants.{OutOfMemory};
ghost use Rattle.clear_routes.specs.Raw.{texts_in};
ghost use Rattle.clear_routes.specs.Paths.{Path, IsListed, paths};
ghost use Rattle.clear_routes.specs.Table.{IsNew, added, path_of, router_table};
ghost use Rattle.clear_routes.specs.Raw.{parts, AllAscii};
ghost use Rattle.clear_routes.specs.Written.{pattern};
ghost use Rattle.clear_routes.specs.Fitting.{Fits};

use crate::kinds::Kinds;
use crate::methods::Methods;
use crate::table::{PATHS, Row};
use matchit::{InsertError, Params, Router};
use std::alloc::Global;
use std::str;

/// What stands in a target for the parameters of its path, in their order.
#[derive(Clone, Copy)]
pub(crate) enum Texts<'t> {
    Zero,
    One(&'t str),
    Two(&'t str, &'t str),
}

/// A path, and what stands in the target for its parameters.
#[derive(Clone, Copy)]
pub(crate) struct Found<'t> {
    pub row: Row,
    pub texts: Texts<'t>,
}

/// The router over all paths.
pub(crate) fn router_over_paths(alloc: Global) -> Result<Router<Row>, InsertError>
    ensures whole { IfOk result (λ router. router ≡ router_table) }
    ensures memory { IfErr result (λ error. error ≡ OutOfMemory) }
{
    let mut router = Router::new(alloc);
    for (text, kinds, methods) in all_paths() {
        let row = Row {
            kinds: *kinds,
            methods: *methods,
        };
        if let Err(error) = add(&mut router, *text, row) {
            return Err(error);
        }
    }
    Ok(router)
}

/// The table. Its rows are behind a call, so that nothing here computes them.
#[tactic(auto, unfolding(crate::specs::Paths::paths))]
fn all_paths() -> &'static [(&'static str, Kinds, Methods)]
    ensures { map path_of result.now ≡ paths }
{
    PATHS
}

fn add(router: &mut Router<Row>, text: &str, row: Row) -> Result<(), InsertError>
    ensures added { OnOk result (router.new ≡ added router.old (text.now, row)) }
    ensures memory { IsNew router.old (text.now, row)
        → IfErr result (λ error. error ≡ OutOfMemory) }
{
    router.insert(text, row)
}

/// The path that a target is, with its parameters as they stand: just where the target is ASCII
/// and written as the path.
pub(crate) fn path_at<'t>(router: &Router<Row>, target: &'t [u8]) -> Option<Found<'t>>
    requires { router.now ≡ router_table }
    ensures found { IfSome result (λ found. IsAscii target.now
        × (path : Path) × IsListed paths path × (path.1 ≡ found.row)
        × Fits (pattern path.0) (texts_in found.texts) target.now) }
    ensures only { IfNone result ((path : Path) (values : List (List ℕ))
        → IsListed paths path → IsAscii target.now → ¬ (Fits (pattern path.0) values target.now)) }
{
    if !target.is_ascii() {
        return None;
    }
    let Ok(text) = str::from_utf8(target) else {
        return None;
    };
    // The router tells what parameters are only where they are text.
    match router.at(text) {
        Ok(found) => {
            let texts = texts_of(&found.params);
            Some(Found {
                row: *found.value,
                texts,
            })
        }
        Err(_) => None,
    }
}

/// What the router took from a target for the parameters, in their order.
fn texts_of<'t>(params: &Params<'_, 't>) -> Texts<'t>
    ensures { (values : List (List ℕ))
        → parts (walk params.now.pattern.now params.now.text.now params.now.path.now
        params.now.names.now 0 0) ≡ values
        → AllAscii values → length values ≤ 2 → texts_in result ≡ values }
{
    let mut all = params.iter();
    let Some((_, first)) = all.next() else {
        return Texts::Zero;
    };
    let Some((_, second)) = all.next() else {
        return Texts::One(first);
    };
    Texts::Two(first, second)
}
