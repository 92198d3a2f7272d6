// What any run of cone, merge, weld and compaction calls leaves: the published rules in specs/, the theorem in proofs/. The calls
// themselves are in the crates `cone`, `merge`, `weld` and `compact`.
#![tactic(auto)]
