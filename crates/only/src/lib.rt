// A leaf with an accepted certificate has one solution only: laws only.
#![tactic(auto)]
