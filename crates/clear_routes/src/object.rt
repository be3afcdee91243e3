//! JSON objects with just the members that are listed, and the one reader of them.
ghost use Rattle.std.specs.Prelude.{◌≡◌, ℕ, List, map, Option, Result, IfOk};
ghost use Rattle.serde_json.specs.Data.{Data};
ghost use Rattle.serde_json.specs.View.{view};
ghost use Rattle.clear_routes.specs.Faults.{Part, Gives, GivesSeen};
ghost use Rattle.clear_routes.specs.Object.{document, body_of};

use crate::faults::{BodyFault, Member, wanted};
use crate::further::check_only;
use serde_json::Value;
use std::alloc::{AllocError, Global};
use std::str;

/// A value that a member of a JSON object can be.
pub(crate) trait FromMember: Drop {
    /// What the member of a name says, if it is there, of this kind and in its range.
    ghost value_at: { List ℕ → Data → Option Self };

    /// The value that the member of this name is. None if it is missing, of another kind or out
    /// of its range.
    fn from_member(alloc: Global, value: &Value, name: &str) -> Result<Option<Self>, AllocError>
        ensures { IfOk result (λ found. found ≡ value_at name.now (view value.now)) };
}

/// The values of members that are listed, in their order: `(A, (B, ()))` for two of them.
pub(crate) trait Members: Drop {
    /// What the members of these names say, or the first that is wrong.
    ghost values_in: { List (List ℕ) → Data → Result Self Part };

    /// The values of the members of these names, or the first of them that is wrong.
    fn read(alloc: Global, value: &Value, names: &[&'static str]) -> Result<Self, BodyFault>
        ensures { Gives result (values_in (map (λ name. name.now) names.now) (view value.now)) };
}

impl Members for () {
    ghost use Rattle.clear_routes.specs.Object.{done};

    ghost values_in = { done };

    fn read(_alloc: Global, _value: &Value, _names: &[&'static str]) -> Result<(), BodyFault> {
        Ok(())
    }
}

impl<A: FromMember, R: Members> Members for (A, R) {
    ghost use Rattle.clear_routes.specs.Object.{also};

    ghost values_in = { also A.value_at R.values_in };

    fn read(alloc: Global, value: &Value, names: &[&'static str]) -> Result<(A, R), BodyFault> {
        let Some((name, names)) = names.split_first() else {
            return Err(BodyFault::Bad(Member::Body));
        };
        let first = wanted(A::from_member(alloc, value, *name)?, Member::Listed(*name))?;
        let rest = R::read(alloc, value, names)?;
        Ok((first, rest))
    }
}

/// What a body with just the members of these names says.
pub(crate) fn read_body<M: Members>(
    alloc: Global,
    body: &[u8],
    names: &[&'static str],
) -> Result<M, BodyFault>
    ensures { Gives result
        (body_of M.values_in (map (λ name. name.now) names.now) body.now) }
{
    let value = document(alloc, body)?;
    let members = wanted(value.as_object(), Member::Body)?;
    let said = M::read(alloc, &value, names)?;
    check_only(alloc, members, names)?;
    Ok(said)
}

// The JSON document that the bytes are.
fn document(alloc: Global, bytes: &[u8]) -> Result<Value, BodyFault>
    ensures { GivesSeen view result (document bytes.now) }
{
    let Ok(text) = str::from_utf8(bytes) else {
        return Err(BodyFault::Bad(Member::Body));
    };
    match Value::from_str(alloc, text) {
        Ok(value) => Ok(value),
        Err(e) => {
            if e.is_memory() {
                Err(BodyFault::Memory)
            } else {
                Err(BodyFault::Bad(Member::Body))
            }
        }
    }
}
