// Choosing by a test, counting the numbers that have a property, and picking the k-th of them: definitions in specs/, and laws in
// proofs/, with the cases of tests and numbers that all crates above cite. There is no code here.
#![tactic(auto)]
