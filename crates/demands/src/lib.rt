// What the user is promised, as theorems over the definitions that the loader's contracts cite. There is no code here: the statements
// stand in specs/, in a folder for each kind of promise, and their proofs in proofs/ the same way.
#![tactic(auto)]
