//! The routes of the office, found by method and target.
ghost use Rattle.std.specs.Prelude.{◌≡◌, IfOk, IfErr};
ghost use Rattle.matchit.specs.declared.error.InsertError.TheVariants.{OutOfMemory};
ghost use Rattle.clear_routes.specs.Allowed.{IsUnrouted};
ghost use Rattle.clear_routes.specs.Routes.{IsRoute};
ghost use Rattle.clear_routes.specs.Table.{router_table};

use crate::parameters::parameters_in;
use crate::paths::{path_at, router_over_paths};
use crate::route::{Route, Unrouted};
use crate::table::Row;
use clear_wire::method::Method;
use matchit::{InsertError, Router};
use std::alloc::Global;

/// The routes of the office.
#[derive(Drop)]
pub struct Routes {
    router: Router<Row>,
    ghost whole: { router ≡ router_table },
}

impl Routes {
    /// All routes. The error is `OutOfMemory`, and no other.
    pub fn new(alloc: Global) -> Result<Routes, InsertError>
        ensures memory { IfErr result (λ error. error ≡ OutOfMemory) }
    {
        let router = router_over_paths(alloc)?;
        Ok(Routes { router })
    }

    /// The route with this method and this target, of which nothing is decoded. `NoRoute` where no
    /// route has the target, and else `BadMethod`, with the methods of those that have it.
    pub fn find(&self, method: Method, target: &[u8]) -> Result<Route, Unrouted>
        ensures found { IfOk result (λ route. IsRoute method target.now route) }
        ensures only { IfErr result (λ unrouted. IsUnrouted method target.now unrouted) }
    {
        let Some(found) = path_at(&self.router, target) else {
            return Err(Unrouted::NoRoute);
        };
        let Some(parameters) = parameters_in(found.row.kinds, found.texts) else {
            return Err(Unrouted::NoRoute);
        };
        let methods = found.row.methods;
        match methods.action(method) {
            Some(action) => Ok(Route { action, parameters }),
            None => Err(Unrouted::BadMethod(methods.allow())),
        }
    }
}
