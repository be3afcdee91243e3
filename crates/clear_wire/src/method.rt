//! The methods that are told apart.
ghost use Rattle.std.specs.Prelude.{◌≡◌};
ghost use Rattle.clear_wire.specs.Method.{method_of, is_head, needs_length};

/// A request's method. `Other` is every one without a name here.
#[derive(Clone, Copy, PartialEq, Eq)]
pub enum Method {
    Get,
    Head,
    Post,
    Put,
    Other,
}

impl Method {
    /// The method with this name. The case of the letters counts.
    pub fn from_name(name: &[u8]) -> Method
        ensures { result ≡ method_of name.now }
    {
        if name == b"GET".as_slice() {
            Method::Get
        } else if name == b"HEAD".as_slice() {
            Method::Head
        } else if name == b"POST".as_slice() {
            Method::Post
        } else if name == b"PUT".as_slice() {
            Method::Put
        } else {
            Method::Other
        }
    }

    /// Whether the answer has no body.
    pub fn is_head(self) -> bool
        ensures { result ≡ is_head self }
    {
        matches!(self, Method::Head)
    }

    /// Whether a request has to state the length of its body.
    pub fn needs_length(self) -> bool
        ensures { result ≡ needs_length self }
    {
        matches!(self, Method::Post | Method::Put)
    }
}
