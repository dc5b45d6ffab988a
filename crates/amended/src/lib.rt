// What the orders of document 02 ask to be proved, and what they leave as it was: proved of the meanings, and no function is here.

#![tactic(auto)]
