// Floats and their bit patterns as whole numbers of units, over lib.Ieee's formats: definitions and theorems in specs/, no code.
#![tactic(auto)]
