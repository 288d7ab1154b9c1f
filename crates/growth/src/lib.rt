// States that only grow, where a rule may ask that a fact is lacking: specifications and their laws, no code.

#![tactic(auto)]
