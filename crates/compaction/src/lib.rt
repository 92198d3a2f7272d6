// Mathematics only: what a compaction is, in specs/, and what it keeps, in proofs/. The call itself is in the crate `compact`.
#![tactic(auto)]
