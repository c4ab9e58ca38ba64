// What the field encoder's instructions look like with their displacement left out: definitions, and the proof that they
// keep the laws of shapes. It has a crate of its own, below the encoder, since the encoder's laws can cite no proof of
// their own crate.
#![tactic(auto)]
