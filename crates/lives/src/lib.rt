// Whole lives of a box: any calls one after the other, and what holds after each of them. There is no function here.

#![tactic(auto)]
