// RIFF WAVE files byte by byte: the header, put and looked up, and samples put into bytes and read from them.
// Nothing is refused here: that is for crate wav. Contracts cite specs/Format.antt and specs/Held.antt.
#![tactic(auto)]

pub mod data;
pub mod header;
pub mod sizes;
