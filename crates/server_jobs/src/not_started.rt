/// No thread was started.
#[derive(Clone, Copy, Debug, PartialEq, Eq, Drop)]
pub struct NotStarted;
