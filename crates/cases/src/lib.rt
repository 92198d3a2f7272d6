// The measured pieces, cases 1 to 12: one table of entries in specs/, one theorem in proofs/. There is no code here.
#![tactic(auto)]
