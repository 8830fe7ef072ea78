// A host's frames and events one after the other, as calls on an instrument, with the click figure over them:
// definitions, theorems, no code. Document 02, L13.
#![tactic(auto)]
