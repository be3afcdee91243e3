//! Why a body gives no value.
ghost use Rattle.std.specs.Prelude.{◌≡◌};
ghost use Rattle.clear_money.specs.Results.{or_fault};
ghost use Rattle.clear_routes.specs.Faults.{word_of, part_of, Gives};

use std::alloc::AllocError;

/// The part of a request that is wrong. A contract sees it by `part_of`.
#[derive(Drop)]
pub enum Member {
    /// The field `Request-Number` of the head.
    RequestNumber,
    /// The whole body: it is no JSON object, or there is one where none is wanted.
    Body,
    /// The member of this name, which the body has to have.
    Listed(&'static str),
    /// A member of this name, which the request doesn't have.
    Further(String),
}

/// Why a body gives no value.
#[derive(Drop)]
pub enum BodyFault {
    /// This part of it is wrong.
    Bad(Member),
    /// There was no memory.
    Memory,
}

impl Member {
    /// The word for the part: `Request-Number`, `body`, or the member's name.
    pub fn word(&self) -> &str
        ensures { result.now ≡ word_of (part_of self.now) }
    {
        match self {
            Member::RequestNumber => "Request-Number",
            Member::Body => "body",
            Member::Listed(name) => *name,
            Member::Further(name) => name.as_str(),
        }
    }
}

impl From<AllocError> for BodyFault {
    ghost use Rattle.clear_routes.specs.declared.faults.BodyFault.TheVariants.{Memory};

    ghost from_gives = { λ _ e. e ≡ Memory };

    fn from(_e: AllocError) -> BodyFault {
        BodyFault::Memory
    }
}

// The value that was found, or the part that is wrong.
pub(crate) fn wanted<T: Drop>(found: Option<T>, member: Member) -> Result<T, BodyFault>
    ensures { Gives result (or_fault (part_of member) found) }
{
    match found {
        Some(value) => Ok(value),
        None => Err(BodyFault::Bad(member)),
    }
}
