// What is proved of libflex.a, in one place: theorems alone.
#![tactic(auto)]
