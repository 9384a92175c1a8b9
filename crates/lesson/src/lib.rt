// The document's figures C1 to C10 and its printed trace: the cases are in specs/, the theorem over
// their one list in proofs/.
#![tactic(auto)]
