// A puzzle as a part of another, and what that says of finished boards: definitions and laws only.
#![tactic(auto)]
