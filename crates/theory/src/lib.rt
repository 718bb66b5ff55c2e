// What rules mean, in specs/, and the theorems about it, in proofs/. There is no code here: the theorems stand on the
// contracts of the calls of the crates above.
#![tactic(auto)]
