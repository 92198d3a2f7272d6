// Mathematics only: what a hole number is, in specs/, and why evidence gives it, in proofs/. There is no code here.
#![tactic(auto)]
