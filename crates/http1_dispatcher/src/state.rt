use crate::inner_dispatcher::InnerDispatcher;
use crate::upgrade::Upgrade;
use http_flow::Framed;
use http1_plain::Request;
use service_core::Service;

/// How far a connection has come. What it keeps lies in one allocation, link and all, so that it is moved as a pointer.
#[derive(Drop)]
pub(crate) enum State<L, S, X, U>
where
    S: Service<Request>,
    X: Service<Request>,
    U: Service<(Request, Framed<L>)>,
{
    /// Its requests are answered.
    Answering(Box<InnerDispatcher<L, S, X, U>>),
    /// Another protocol has its link.
    Upgraded(Box<Upgrade<L, S, X, U>>),
    /// Memory ran out before it was served. The link is as it was given.
    Refused(L),
    /// It has ended.
    Over,
}
