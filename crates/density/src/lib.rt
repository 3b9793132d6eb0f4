// Density: no code. The definitions stand in specs/, the theorems over them in proofs/.
#![tactic(auto)]
