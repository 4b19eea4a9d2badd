/// How often the futures of the services were pending. At the greatest `u64` a count stays.
#[derive(Clone, Copy)]
pub struct Waits {
    /// Those of the service of requests.
    pub service: u64,
    /// Those of the expect service.
    pub expect: u64,
}
