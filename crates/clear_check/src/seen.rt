//! What a second look at a file found.
ghost use Rattle.std.specs.Prelude.{◌≡◌, IfOk, codes, map};
ghost use Rattle.std.specs.List.{concat};
ghost use Rattle.clear_check.specs.Shown.{shown_byte};

use crate::texts::{in_line, joined};
use std::alloc::{AllocError, Global};
use std::marker::Model;

/// What a second look at a file found: what stands at the fault, and what belongs to it. A contract
/// sees two texts, each of which stays in one line.
#[derive(Drop)]
pub struct Seen {
    here: String,
    other: String,
}

impl Model for Seen {
    ghost use Rattle.std.specs.Prelude.{string_bytes};
    ghost use Rattle.clear_check.specs.Shown.{Found, IsInLine};

    ghost Value = { Found };

    ghost view = { λ s. record { here = string_bytes s.here; other = string_bytes s.other } };

    ghost invariant = { λ s. IsInLine
        (record { here = string_bytes s.here; other = string_bytes s.other }) };
}

impl Seen {
    /// Two texts, each of these parts one after another, with a `?` for each byte that is no plain
    /// ASCII text.
    pub fn new(alloc: Global, here: &[&str], other: &[&str]) -> Result<Seen, AllocError>
        ensures here { IfOk result (λ seen. seen.here
            ≡ map shown_byte (concat (map (λ part. part.now) here.now))) }
        ensures other { IfOk result (λ seen. seen.other
            ≡ map shown_byte (concat (map (λ part. part.now) other.now))) }
    {
        let here = in_line(alloc, joined(alloc, here)?.as_bytes())?;
        let other = in_line(alloc, joined(alloc, other)?.as_bytes())?;
        Ok(Seen { here, other })
    }

    /// Nothing was found: both texts are `?`.
    pub fn nothing(alloc: Global) -> Result<Seen, AllocError>
        ensures { IfOk result (λ seen. (seen.here ≡ codes "?") × (seen.other ≡ codes "?")) }
    {
        Seen::new(alloc, &["?"], &["?"])
    }

    /// What stands at the fault.
    pub fn here(&self) -> &str
        ensures { result.now ≡ self.now.here }
    {
        self.here.as_str()
    }

    /// What belongs to it.
    pub fn other(&self) -> &str
        ensures { result.now ≡ self.now.other }
    {
        self.other.as_str()
    }
}
