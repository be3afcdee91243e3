//! Members that an object has beyond those that are listed.
ghost use Rattle.std.specs.Prelude.{◌≡◌, map};
ghost use Rattle.std.specs.Option.{option_map};
ghost use Rattle.serde_json.specs.View.{members_view};
ghost use Rattle.clear_routes.specs.Faults.{Gives};
ghost use Rattle.clear_routes.specs.Further.{least_further, only};
ghost use Rattle.clear_routes.specs.InOrder.{first_further};

use crate::faults::{BodyFault, Member};
use clear_money::names::is_one_of;
use serde_json::{Map, Value};
use std::alloc::Global;

// Nothing, where each member is listed; else the least by bytes of those that aren't.
pub(crate) fn check_only(
    alloc: Global,
    members: &Map<String, Value>,
    listed: &[&str],
) -> Result<(), BodyFault>
    ensures { Gives result
        (only (map (λ name. name.now) listed.now) (members_view members.now.entries)) }
{
    match least_further(members, listed) {
        Some(name) => Err(BodyFault::Bad(Member::Further(String::from_str(alloc, name)?))),
        None => Ok(()),
    }
}

// The least by bytes of the members that aren't listed. Members stand in that order.
pub(crate) fn least_further<'a>(members: &'a Map<String, Value>, listed: &[&str]) -> Option<&'a str>
    ensures { option_map (λ name. name.now) result
        ≡ least_further (map (λ name. name.now) listed.now) (members_view members.now.entries) }
{
    // No effect at run time: the proof reads from this call that the names rise.
    let _in_order = members.iter();
    first_further(members, listed)
}

// The first of the members that aren't listed.
fn first_further<'a>(members: &'a Map<String, Value>, listed: &[&str]) -> Option<&'a str>
    ensures { option_map (λ name. name.now) result
        ≡ first_further (map (λ name. name.now) listed.now) (members_view members.now.entries) }
{
    for (name, _) in members {
        if !is_one_of(name.as_str(), listed) {
            return Some(name.as_str());
        }
    }
    None
}
