// Mathematics only: the definitions stand in specs/, the theorems in proofs/.
#![tactic(auto)]
