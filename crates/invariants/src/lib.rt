// What every run keeps, proved of the definitions of the rules. There is no code here.
#![tactic(auto)]
