// Laws of lists, orders, folds and charged runs that the other crates cite. The definitions are in specs/, the laws in proofs/; there is no code.
#![tactic(auto)]
