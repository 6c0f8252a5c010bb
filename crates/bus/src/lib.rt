// What happens on the bus: the oldest entry of a board's queue is carried (move 3), and a word comes in from outside (move 4).
#![tactic(auto)]

pub mod carry;
mod delivery;
pub mod inject;
pub mod oldest;
pub mod origin;
mod sync;
mod transfer;
pub mod transmit;
mod word;
