//! How a run ends.
use cert_text::Cert;
use cuts::{SpentAt, WideAt};
use nogoods::Piece;

/// How a run ends.
#[derive(Drop)]
pub enum Ending {
    /// With a verdict, by its certificate and the number of pieces drawn.
    Verdict { cert: Cert, drawn: u64 },
    /// Each piece that is left was set aside; of these this one was drawn first, and its walk ends
    /// at a wide dictionary.
    Overflow { piece: Piece, at: WideAt },
    /// Each piece that is left was set aside; of these this one was drawn first, and a stage of its
    /// walk spends its pivots.
    PivotsSpent { piece: Piece, at: SpentAt },
    /// As many pieces were drawn as may be, and this one is left.
    PiecesSpent { drawn: u64, left: Piece },
    /// Without memory.
    NoMemory,
}
