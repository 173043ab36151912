// What is promised of the five measures and the tight pair: the three demands (SCOPE 8), the marked cases (SCOPE 13) and the programs that are shut out (SCOPE 14), over every call that meets its contract. The statements are in specs/, their proofs in proofs/; there is no code.
#![tactic(auto)]
