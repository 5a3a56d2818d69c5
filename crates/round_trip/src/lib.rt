#![tactic(auto)]

// Nothing to call: what holds of `reader::read` and `writer::write` together stands in specs/ and proofs/.
