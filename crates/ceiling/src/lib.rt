// Mathematics only: a ceiling for the reducer's additions, in specs/, and why none passes it, in proofs/. There is no code here.
#![tactic(auto)]
