// Lessons: no code. The small drawings of 01 stand in specs/, what they show in proofs/.
#![tactic(auto)]
