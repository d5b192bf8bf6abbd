// What each call of the relay did, in the words of the account: that the answer tells it truly is proved here, call by call.
// There is no code: the definitions stand in specs/ and the theorems in proofs/.

#![tactic(auto)]
