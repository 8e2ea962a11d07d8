//! Modes over a text that lies in pieces of others' memory: each byte is changed where it lies.
#![tactic(auto)]

mod cbc;
mod copies;
mod ctr;
mod front;
mod gcm;
mod mac;
mod piece;
mod piece_cipher;
mod walks;

pub use copies::{read_at, write_at};
pub use gcm::{open_gcm, seal_gcm};
pub use mac::mac_of_front;
pub use piece::{PieceMut, ReadPiece};
pub use piece_cipher::PieceCipher;
