//! What a service under a policy answers.
ghost use Rattle.http1_grammar.specs.Answers.{Request as Seen};
ghost use Rattle.http1_grammar.specs.Wire.{Response as Parts};
ghost use Rattle.http1_plain.specs.Views.{request_of};
ghost use Rattle.http1_plain.specs.declared.request.Request.{Request as Asked};
ghost use Rattle.service_core.specs.declared.peer.Peer.{Peer as From};
ghost use Rattle.cors_rules.specs.Answers.{cors};
ghost use Rattle.cors_rules.specs.Policy.{Policy as Kept};
ghost use Rattle.cors_answer.specs.Faults.{fault_response};
ghost use Rattle.cors_answer.specs.Meaning.{Responds, UnderPolicy};

use cors_policy::OriginRule;
use http1_plain::{ErrorResponse, Request, Response};
use service_core::Service;

/// Where each response that a service may give to a request is the one of a function, each that may be given to it under a
/// policy is the policy's answer over that function, want of memory aside. What a middleware may give is `UnderPolicy` over
/// what its service may give, what the transform may give is so over each service that it is given, and what a factory under
/// the transform may give is so over each service that the factory makes.
pub fn policy_is_cors<S, G>()
where
    S: Service<Request, Response = Response, Error: ErrorResponse>,
    G: OriginRule,
    ensures { (policy : Kept G) (service : S) (handler : Seen From → Parts) (q : Asked)
        → Responds S.Error.response (S.may service q) (handler (request_of q))
        → Responds fault_response (UnderPolicy S.Error.response G.allowed policy (S.may service q) q)
        (cors G.allowed policy handler (request_of q)) }
{}
