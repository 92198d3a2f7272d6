// A session: a table from an accepted sketch file or part list, then any run of calls. The theorem is in proofs/; there is no code here.
#![tactic(auto)]
