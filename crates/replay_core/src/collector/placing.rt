//! Pieces at the places of their groups.

ghost use Rattle.std.specs.Prelude.{◌≡◌, ◌<◌, ◌^◌, map, vec_len, Some, None, IfOk, IfErr, OnOk};
ghost use Rattle.std.specs.List.Sorted.{IsPermutation};
ghost use Rattle.replay_core.specs.Steps.PiecePlaces.{first_missing, pieces_with_places};
ghost use Rattle.replay_core.specs.Collecting.{first_bad};
ghost use Rattle.replay_core.specs.Steps.PiecePlaces.{IsFault, IsFaultAt, IsPlaced};

use crate::collect_fault::CollectFault;
use crate::lanes::piece::Piece;
use std::alloc::Global;

/// Puts each piece into the place of its group.
pub(crate) fn pieces_by_group(
    alloc: Global,
    pieces: Vec<(u32, Piece)>,
    n: u32,
) -> Result<Vec<Option<Piece>>, CollectFault>
    ensures ok { IfOk result (λ v. (vec_len v ≡ n) × (first_bad n pieces.items ≡ None)) }
    ensures same { IfOk result (λ v. IsPermutation pieces.items (pieces_with_places 0 v.items)) }
    ensures err { IfErr result (λ e. IsFault e (first_bad n pieces.items)) }
{
    let mut places: Vec<Option<Piece>> = match Vec::with_capacity(alloc, n as usize) {
        Ok(places) => places,
        Err(_) => return Err(CollectFault::Memory),
    };
    'room: for _ in 0..n {
        places.push_reserved(None);
    }
    'fill: for (group, piece) in pieces {
        place_piece(&mut places, n, group, piece)?;
    }
    Ok(places)
}

// Puts a piece into the place of its group.
fn place_piece(
    places: &mut Vec<Option<Piece>>,
    n: u32,
    group: u32,
    piece: Piece,
) -> Result<(), CollectFault>
    requires { vec_len places.old ≡ n }
    ensures ok { OnOk result (IsPlaced places.old.items group piece places.new.items) }
    ensures err { IfErr result (IsFaultAt places.old.items n group piece) }
{
    if group >= n {
        drop(piece);
        return Err(CollectFault::Stranger { group });
    }
    if places[group as usize].is_some() {
        drop(piece);
        return Err(CollectFault::Twice { group });
    }
    places[group as usize] = Some(piece);
    Ok(())
}

/// The pieces, if no place is empty.
pub(crate) fn pieces_in_order(
    alloc: Global,
    places: Vec<Option<Piece>>,
) -> Result<Vec<Piece>, CollectFault>
    requires { vec_len places < 2 ^ 32 }
    ensures ok { IfOk result (λ v. map Some v.items ≡ places.items) }
    ensures err { IfErr result (λ e. IsFault e (first_missing 0 places.items)) }
{
    let mut pieces = match Vec::with_capacity(alloc, places.len()) {
        Ok(pieces) => pieces,
        Err(_) => return Err(CollectFault::Memory),
    };
    let mut group = 0;
    for place in places {
        let Some(piece) = place else {
            return Err(CollectFault::Missing { group });
        };
        pieces.push_reserved(piece);
        group += 1;
    }
    Ok(pieces)
}
