// What is proved of all public calls together: the three demands. There is no code here.
#![tactic(auto)]
