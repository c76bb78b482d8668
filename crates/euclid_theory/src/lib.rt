// Division, GCD and cofactors of lists: the definitions stand in specs/, the theorems in proofs/.
#![tactic(auto)]
