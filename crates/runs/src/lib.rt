// What holds of every run of the faithful walk: theorems about its definitions.
#![tactic(auto)]
