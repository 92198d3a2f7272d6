// Mathematics only: cells under other numbers have the same hole numbers. There is no code here.
#![tactic(auto)]
