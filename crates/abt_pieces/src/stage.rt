//! The stage of a cutter, and what a step of it returns.
use crate::PieceFault;
use crate::outline::{Outline, Piece};
use crate::plan::Planner;
use crate::write::Writer;

/// The stage of a cutter between its calls.
#[derive(Clone, Copy, Drop)]
pub enum CutterStage {
    /// Before a piece.
    Between,
    /// Planning a piece.
    Plan(Planner),
    /// Before the header of a planned piece.
    Begin(Outline),
    /// Writing the chunks of a planned piece.
    Write(Outline, Writer),
    /// After the last piece.
    Done,
    /// After a fault, which is returned from now on.
    Failed(PieceFault),
}

/// What a step of cutting returns.
#[derive(Clone, Copy, Debug, PartialEq, Eq, Drop)]
pub enum PieceProgress {
    /// The piece is begun, and the next step goes on with it.
    More,
    /// This piece is whole.
    Piece(Piece),
    /// The last piece is made. Every further step returns this again.
    End,
}
