// What a valid table is: a semi-simplicial set in the published sense, and finite cells whose mod 2 boundary applied twice gives
// nothing. Mathematics only: definitions in specs/, theorems in proofs/.
#![tactic(auto)]
