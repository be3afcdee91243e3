//! The kinds of parameters.

/// What a path's parameter is.
#[derive(Clone, Copy)]
pub enum Kind {
    /// A firm's number.
    Employer,
    /// A month, `YYYY-MM`.
    Month,
    /// A claim's number.
    Claim,
    /// A worker's number.
    Worker,
    /// A payout list's number.
    List,
    /// A reminder run's number.
    Run,
}

/// The kinds of a path's parameters, in their order.
#[derive(Clone, Copy)]
pub enum Kinds {
    Zero,
    One(Kind),
    Two(Kind, Kind),
}
