ghost use Rattle.std.specs.Prelude.{◌≡◌, ◌<◌, ◌≤◌, true, All, IfOk, IfSome};
ghost use Rattle.jv_model.specs.promise.blocks.Slices.{IsRecord, covers, visible, place_by, stored_place};
ghost use Rattle.jv_model.specs.blocks.Slices.{IsPart, IsPlan, IsAsStored};
ghost use Rattle.jv_slices.specs.Stretches.{piece_of};
ghost use Rattle.jv_slices.specs.Shown.{IsOfRecord, EndsBy};

use crate::layout::{Stretch, show_range};
use jv_model::{List, Piece, Pieces, Rec, Spot, WINDOW};
use std::alloc::{AllocError, Global};

/// Where the byte of a position of a window lies: as the last record of the list says that covers it.
#[tactic(auto, unfolding(jv_model::specs::promise::blocks::Slices::stored_place))]
pub fn byte_at(list: &List, position: u32) -> Spot
    requires { All IsRecord list.now }
    ensures { result ≡ stored_place list.now position }
{
    place_by(visible(list.as_slice(), position), position)
}

/// The last record that covers a position.
fn visible(records: &[Rec], position: u32) -> Option<Rec>
    ensures { result ≡ visible records.now position }
{
    records
        .iter()
        .rev()
        .copied()
        .find(|part| covers(position, *part))
}

fn covers(position: u32, part: Rec) -> bool
    ensures { result ≡ covers position part }
{
    part.pos <= position && position - part.pos < part.len
}

/// Where the byte lies that a record has for a position that it covers.
fn place_by(seen: Option<Rec>, position: u32) -> Spot
    requires { IfSome seen (λ r. IsRecord r × (covers position r ≡ true)) }
    ensures { result ≡ place_by seen position }
{
    match seen {
        Some(part) if part.id != 0 => Spot::Slice {
            id: part.id,
            size: part.size,
            at: part.off + (position - part.pos),
        },
        _ => Spot::Zero,
    }
}

/// What a reader sees of the positions of a window from `from` to `to`, in order and without a gap. A piece ends where
/// another record begins to be seen, or none, and at `to`. It shows bytes of a record's slice, or zeros. Positions
/// count bytes from the start of the window, which has [`jv_model::WINDOW`]. The only error is out of memory. JuiceFS, Internals:
/// slices overlap, and the latest is seen.
pub fn plan(alloc: Global, list: &List, from: u32, to: u32) -> Result<Pieces, AllocError>
    requires records { All IsRecord list.now }
    requires rising { from ≤ to }
    requires in_window { to ≤ WINDOW }
    ensures plan { IfOk result (λ pieces. IsPlan list.now from to pieces) }
    ensures says { IfOk result (λ pieces. All (IsAsStored list.now) pieces) }
    ensures parts { IfOk result (λ pieces. All IsPart pieces) }
    ensures ends { IfOk result (λ pieces. All (EndsBy to) pieces) }
    ensures named { IfOk result (λ pieces. All (IsOfRecord list.now) pieces) }
{
    let stretches = show_range(alloc, list.as_slice(), from, to)?;
    let mut pieces = Vec::with_capacity(alloc, stretches.len())?;
    let mut at = from;
    for stretch in stretches.as_slice() {
        pieces.push(piece(at, *stretch))?;
        at = stretch.end;
    }
    Ok(Pieces::from_vec(pieces))
}

/// The piece of a stretch that begins at a position.
fn piece(from: u32, stretch: Stretch) -> Piece
    requires some { from < stretch.end }
    requires seen { IfSome stretch.seen (λ r. IsRecord r × (covers from r ≡ true)) }
    ensures { result ≡ piece_of from stretch }
{
    Piece {
        from,
        len: stretch.end - from,
        spot: place_by(stretch.seen, from),
    }
}
