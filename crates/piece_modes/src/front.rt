//! A walk over the first bytes of a text.

ghost use Rattle.std.specs.Prelude.{◌≡◌, ◌≤◌, length, map, take, drop};
ghost use Rattle.piece_modes.specs.Front.{GoesOver, goes_none, goes_on};
ghost use Rattle.piece_modes.specs.Pieces.{text_over, size_of};

use crate::piece::PieceMut;
use crate::walks::walk_pieces;
use sg_walk::Walker;

/// A walker that goes over so many more bytes. What stands behind them stays.
#[derive(Drop)]
struct Front<W> {
    walker: W,
    left: usize,
}

impl<W: Walker> Walker for Front<W> {
    ghost makes = { λ u text made v. GoesOver W.makes u.walker u.left text made v.walker v.left };

    ghost stays = { λ u. goes_none W.makes u.walker u.left (W.stays u.walker) };

    ghost joins = { λ u v w a b made_a made_b whole first second.
        goes_on W.makes W.joins u.walker u.left v.walker v.left w.walker w.left a b made_a made_b whole first second };

    fn step(&mut self, piece: &mut [u8]) {
        if self.left == 0 {
            return;
        }
        let count = self.left.min(piece.len());
        self.walker.step(&mut piece[..count]);
        self.left -= count;
    }
}

/// Has the walker go over the first `n` bytes of the pieces. What stands behind them stays, and each piece keeps its
/// length.
pub fn walk_front<W: Walker + Drop>(pieces: &mut [PieceMut<'_>], n: usize, walker: W) -> W
    requires { n ≤ length (text_over pieces.old) }
    ensures made { W.makes walker (take n (text_over pieces.old)) (take n (text_over pieces.new)) result }
    ensures rest { drop n (text_over pieces.new) ≡ drop n (text_over pieces.old) }
    ensures sizes { map size_of pieces.new ≡ map size_of pieces.old }
{
    let mut front = Front { walker, left: n };
    walk_pieces(pieces, &mut front);
    front.walker
}
