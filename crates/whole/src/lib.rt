// Floor 1: whole numbers. There is no code here: proofs/ lets `omega` work on ℤ and carries an i32 to ℤ and back, specs/ has the larger and the smaller of two.
#![tactic(auto)]
