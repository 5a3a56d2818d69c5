// Whether a rule's body is quiet, by the roles that count.
#![tactic(auto)]

pub mod quiet;
