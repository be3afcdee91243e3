//! The rules that end a stream.

/// The rule that a stream breaks, and that ends it.
#[derive(Clone, Copy)]
pub enum StreamRule {
    /// The bytes are no head.
    BadHead,
    /// The head or the body is larger than it may be.
    TooLarge,
    /// How long the body is isn't clear.
    BadFraming(FramingStatus),
}

/// Why it isn't clear how long a body is, as the status of the answer says it.
#[derive(Clone, Copy)]
pub enum FramingStatus {
    /// 501: the body comes in a transfer coding.
    NotImplemented,
    /// 417: the head has a field `Expect`, and interim answers aren't given.
    ExpectationFailed,
    /// 411: no length is stated where one is needed.
    LengthRequired,
    /// 400: the stated length is no number or stands twice, or the input ends inside the body.
    BadRequest,
}
