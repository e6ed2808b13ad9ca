// The three demands, proved of the definitions that the public contracts cite. There is no code here.
#![tactic(auto)]
