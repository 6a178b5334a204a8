// What is promised, as theorems over the definitions that the calls' contracts cite. There is no code.

#![tactic(auto)]
