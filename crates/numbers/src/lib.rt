// Numbers by their digits: no code, only laws that the layers above cite (proofs/).
#![tactic(auto)]
