// The fakes refuted, and a run on which no clause of the demands is empty: theorems over demands, see specs/. No function stands here.
#![tactic(auto)]
