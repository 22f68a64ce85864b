// Facts on lists, and numbers written in digits of base 2^w: definitions and theorems in specs/, no code.
#![tactic(auto)]
