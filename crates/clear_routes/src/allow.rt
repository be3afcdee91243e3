//! The methods of a path.
ghost use Rattle.std.specs.Prelude.{◌≡◌};
ghost use Rattle.clear_routes.specs.Allowed.{allow_text};

/// The methods that a path has.
#[derive(Clone, Copy)]
pub enum Allow {
    Get,
    Post,
    PostPut,
}

impl Allow {
    /// The methods as an answer lists them: `GET`, `POST` or `POST, PUT`.
    pub fn text(self) -> &'static str
        ensures { result.now ≡ allow_text self }
    {
        match self {
            Allow::Get => "GET",
            Allow::Post => "POST",
            Allow::PostPut => "POST, PUT",
        }
    }
}
