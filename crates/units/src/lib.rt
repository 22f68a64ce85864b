// The arithmetic of whole units at p significant bits: definitions and theorems in specs/, no code.
#![tactic(auto)]
