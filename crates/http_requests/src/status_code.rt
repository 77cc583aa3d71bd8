ghost use Rattle.std.specs.Prelude.{◌≡◌};
ghost use Rattle.http_requests.specs.StatusCode as spec;

/// Why a request is refused, as a status code of HTTP (RFC 9110, section 15.5).
#[derive(Clone, Copy, Debug, PartialEq, Eq)]
pub enum StatusCode {
    BadRequest,
    NotFound,
    MethodNotAllowed,
    LengthRequired,
    ContentTooLarge,
}

impl StatusCode {
    /// The number of the code, as 400 for `BadRequest`.
    pub fn number(&self) -> u16
        ensures { result ≡ spec.number_of self.now }
    {
        match self {
            StatusCode::BadRequest => 400,
            StatusCode::NotFound => 404,
            StatusCode::MethodNotAllowed => 405,
            StatusCode::LengthRequired => 411,
            StatusCode::ContentTooLarge => 413,
        }
    }

    /// The reason phrase that follows the number in a status line.
    pub fn reason(&self) -> &'static str
        ensures { result.now ≡ spec.reason_of self.now }
    {
        match self {
            StatusCode::BadRequest => "Bad Request",
            StatusCode::NotFound => "Not Found",
            StatusCode::MethodNotAllowed => "Method Not Allowed",
            StatusCode::LengthRequired => "Length Required",
            StatusCode::ContentTooLarge => "Content Too Large",
        }
    }
}
