/// The error of the first factory that makes no service for a connection, in the order expect, upgrade, service.
#[derive(Clone, Copy, Debug, PartialEq, Eq, Drop)]
pub enum HttpInitError<E, XE, UE> {
    /// That of the factory of expect services.
    Expect(XE),
    /// That of the factory of upgrade services.
    Upgrade(UE),
    /// That of the factory of services of requests.
    Service(E),
    /// Memory ran out.
    Memory,
}
