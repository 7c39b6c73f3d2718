// The paper's cases as one list (specs/), proved of every program that meets the contracts of the public calls (proofs/). There is no code here.
#![tactic(auto)]
