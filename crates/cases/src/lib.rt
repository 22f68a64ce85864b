// The twelve cases of rules T1 to T12 as one checked table (rule K7), calls at the scope's bounds, calls with two faults (rules O1 to O5 and O7 to O11) and C
// calls beside it: definitions and theorems in specs/, no code.
#![tactic(auto)]
