/// The error of the first service of a connection whose readiness errs, in the order expect, service, upgrade.
#[derive(Clone, Copy, Debug, PartialEq, Eq, Drop)]
pub enum ReadyFault<E, XE, UE> {
    /// That of the expect service.
    Expect(XE),
    /// That of the service of requests.
    Service(E),
    /// That of the upgrade service.
    Upgrade(UE),
}
