// The depot as a world of the theory: see specs/ and proofs/.

#![tactic(auto)]
