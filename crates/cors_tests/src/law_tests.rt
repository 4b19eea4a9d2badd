//! The law of services under a policy.
use crate::inner::Inner;
use cors_answer::laws::policy_is_cors;
use cors_policy::NoRule;

#[test]
fn the_law_can_be_called() {
    policy_is_cors::<Inner, NoRule>();
}
