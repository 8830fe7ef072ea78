// What a host of floats does with an instrument: frames, blocks of frames, and the click figure over them:
// definitions, theorems, no code. Document 02, L13.
#![tactic(auto)]
