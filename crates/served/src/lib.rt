// From the promises of the exported entries to the service that the demands speak of: theorems, see specs/ and proofs/. No function stands here.
#![tactic(auto)]
