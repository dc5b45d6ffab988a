// What the meanings promise, proved of them and not of code: there is no function here.

#![tactic(auto)]
