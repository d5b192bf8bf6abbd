// The account of a relay: what an observer books of its calls and answers, and the laws that hold between the account and
// the relay after every run. There is no code here: the definitions stand in specs/ and the theorems in proofs/; the calls
// that promise them are in the player.

#![tactic(auto)]
