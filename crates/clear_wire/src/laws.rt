//! The law that a stream has one list of requests.
ghost use Rattle.std.specs.Prelude.{ℕ, List};
ghost use Rattle.clear_wire.specs.Cut.{HasAtMostOneCut};

/// The bytes of a stream determine its requests and the rule that ends it, however they are read.
pub fn law_one_cut()
    ensures { (bytes : List ℕ) → HasAtMostOneCut bytes }
{}
