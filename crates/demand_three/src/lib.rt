// Demand 3: what the calls together promise. The statement and its proof; no code.

#![tactic(auto)]
