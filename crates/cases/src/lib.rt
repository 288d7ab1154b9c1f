// The paper's marked examples D1 to D12 and its table of refusals, each claim proved: see specs/ and proofs/.

#![tactic(auto)]
