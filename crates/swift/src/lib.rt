// Demand 3 and its consequences, the agreed runs, uniqueness: theorems over the definitions that the contracts below cite.
#![tactic(auto)]
