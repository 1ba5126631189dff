// CRISP messages sealed and opened on slices: ICV and payload under derived keys. No table and no window.
#![tactic(auto)]

pub mod sealing; // sealing.rt: a whole message written, and one checked and taken apart
