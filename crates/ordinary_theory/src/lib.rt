// Lists as polynomials in t, and division in the usual sense: the definitions stand in specs/, the theorems in proofs/.
#![tactic(auto)]
