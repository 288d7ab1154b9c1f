// Laws of the logic for proofs that walk code by hand, of slices and arrays that are lent: no code.

#![tactic(auto)]
