// The theory of a session (demand 3 of document 01): definitions in specs/, laws in proofs/. There is no code.

#![tactic(auto)]
