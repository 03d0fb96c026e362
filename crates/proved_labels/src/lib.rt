// No code: the labels that paper 01 marks P stand in specs/, and are proved of all the rules together in proofs/.
#![tactic(auto)]
