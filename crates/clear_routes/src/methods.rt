//! What the methods of a path ask for.
ghost use Rattle.std.specs.Prelude.{◌≡◌};
ghost use Rattle.clear_routes.specs.Methods.{action_for, allow_of};

use crate::allow::Allow;
use crate::table::{CommandKind, QueryKind};
use clear_wire::method::Method;

/// What a request asks for: to do something, or to be told it.
#[derive(Clone, Copy)]
pub enum Action {
    Do(CommandKind),
    Ask(QueryKind),
}

/// The methods of a path, with what each asks for.
#[derive(Clone, Copy)]
pub enum Methods {
    Get(QueryKind),
    Post(CommandKind),
    PostPut(CommandKind, CommandKind),
}

impl Methods {
    /// What this method asks for.
    pub(crate) fn action(self, method: Method) -> Option<Action>
        ensures { result ≡ action_for method self }
    {
        match self {
            Methods::Get(query) => match method {
                Method::Get => Some(Action::Ask(query)),
                Method::Post | Method::Put | Method::Head | Method::Other => None,
            },
            Methods::Post(command) => match method {
                Method::Post => Some(Action::Do(command)),
                Method::Get | Method::Put | Method::Head | Method::Other => None,
            },
            Methods::PostPut(post, put) => match method {
                Method::Post => Some(Action::Do(post)),
                Method::Put => Some(Action::Do(put)),
                Method::Get | Method::Head | Method::Other => None,
            },
        }
    }

    /// Which methods they are.
    pub(crate) fn allow(self) -> Allow
        ensures { result ≡ allow_of self }
    {
        match self {
            Methods::Get(_) => Allow::Get,
            Methods::Post(_) => Allow::Post,
            Methods::PostPut(_, _) => Allow::PostPut,
        }
    }
}
