/// What the check of a service came to.
#[derive(Drop)]
pub(crate) enum Checked<E, I> {
    /// It neither erred nor was made anew.
    Stayed,
    /// It erred, or was made anew.
    Moved,
    /// It had erred so, and could not be made anew.
    Refused { readiness: E, error: I },
}
