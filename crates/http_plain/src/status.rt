/// The statuses that are answered (RFC 9110, section 15; RFC 6585, section 5).
#[derive(Clone, Copy)]
pub(crate) enum Status {
    /// 200.
    Ok,
    /// 204.
    NoContent,
    /// 400.
    BadRequest,
    /// 404.
    NotFound,
    /// 413.
    TooLarge,
    /// 431.
    FieldsTooLarge,
}
