// Tests over lists and over the numbers below a bound: specifications and their laws, no code.

#![tactic(auto)]
