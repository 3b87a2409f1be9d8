//! The collector.

pub(crate) mod merge;
pub(crate) mod placing;
pub(crate) mod whole;

ghost use Rattle.std.specs.Prelude.{◌≡◌, ◌<◌, ◌++◌, ◌∷◌, [], map, length, IfOk, IfErr, OnOk};
ghost use Rattle.replay_core.specs.Collecting.{IsCollected, IsCollectFault, IsMadeOf};
ghost use Rattle.replay_core.specs.{Collecting.tables_of, Tables.CanMerge, Vocabulary.flat_map};
ghost use Rattle.replay_core.specs.Uniting.{sooner, first_exit};

use crate::collect_fault::CollectFault;
use crate::collector::merge::merge_all;
use crate::collector::placing::{pieces_by_group, pieces_in_order};
use crate::collector::whole::Whole;
use crate::lanes::piece::Piece;
use crate::sorting::by_number;
use aggregations::AggTable;
use d_values::Text;
use std::alloc::{AllocError, Global};

/// Makes one whole of the pieces of this many groups, each with its group's number. They come in
/// any order. If they aren't one of each group, the fault names a group with two pieces or none, or
/// one that isn't there.
///
/// ```text
/// let whole = collect(alloc, pieces, 2)?; // of pieces of the groups 1 and 0
/// collect(alloc, twice, 2); // Err(CollectFault::Twice { group: 0 }), of two pieces of group 0
/// ```
pub fn collect(alloc: Global, pieces: Vec<(u32, Piece)>, n: u32) -> Result<Whole, CollectFault>
    requires n { 0 < n }
    requires tables { CanMerge (tables_of pieces.items) }
    ensures ok { IfOk result (IsCollected n pieces.items) }
    ensures err { IfErr result (IsCollectFault n pieces.items) }
{
    let places = pieces_by_group(alloc, pieces, n)?;
    let sorted = pieces_in_order(alloc, places)?;
    let whole = whole_of_pieces(alloc, sorted)?;
    Ok(whole)
}

// What the pieces hold, one after the other.
#[derive(Drop)]
struct Contents {
    events: Vec<(u64, Text)>,
    tables: Vec<AggTable>,
    ran: Vec<Vec<u64>>,
    exit: Option<(u64, u8)>,
}

// What the pieces have.
fn whole_of_pieces(alloc: Global, pieces: Vec<Piece>) -> Result<Whole, AllocError>
    requires some { 0 < length pieces.items }
    requires tables { CanMerge (map (λ p. p.table) pieces.items) }
    ensures { IfOk result (IsMadeOf pieces.items) }
{
    let Contents {
        events,
        tables,
        ran,
        exit,
    } = contents_of(alloc, pieces)?;
    let events = by_number(events)?;
    let table = merge_all(tables)?;
    Ok(Whole {
        events,
        table,
        ran,
        exit,
    })
}

// The contents of the pieces, and the first of their exits.
fn contents_of(alloc: Global, pieces: Vec<Piece>) -> Result<Contents, AllocError>
    ensures texts { IfOk result
        (λ c. c.events.items ≡ flat_map (λ p. p.events.items) pieces.items) }
    ensures tables { IfOk result (λ c. c.tables.items ≡ map (λ p. p.table) pieces.items) }
    ensures ran { IfOk result
        (λ c. map (λ v. v.items) c.ran.items ≡ map (λ p. p.taken.items) pieces.items) }
    ensures exit { IfOk result
        (λ c. c.exit ≡ first_exit (map (λ p. p.exit) pieces.items)) }
{
    let mut contents = Contents {
        events: Vec::new(alloc),
        tables: Vec::new(alloc),
        ran: Vec::new(alloc),
        exit: None,
    };
    for piece in pieces {
        add(&mut contents, piece)?;
    }
    Ok(contents)
}

// Adds what a piece has.
fn add(contents: &mut Contents, piece: Piece) -> Result<(), AllocError>
    ensures events { OnOk result (contents.new.events.items
        ≡ contents.old.events.items ++ piece.events.items) }
    ensures tables { OnOk result (contents.new.tables.items
        ≡ contents.old.tables.items ++ piece.table ∷ []) }
    ensures ran { OnOk result (contents.new.ran.items
        ≡ contents.old.ran.items ++ piece.taken ∷ []) }
    ensures exit { OnOk result (contents.new.exit ≡ sooner contents.old.exit piece.exit) }
{
    let Piece {
        mut events,
        table,
        taken,
        exit,
        ..
    } = piece;
    contents.events.append(&mut events)?;
    contents.tables.push(table)?;
    contents.ran.push(taken)?;
    contents.exit = sooner(contents.exit, exit);
    Ok(())
}

// The exit with the lesser number.
fn sooner(exit: Option<(u64, u8)>, other: Option<(u64, u8)>) -> Option<(u64, u8)>
    ensures { result ≡ sooner exit other }
{
    match (exit, other) {
        (None, other) => other,
        (exit, None) => exit,
        (Some(exit), Some(other)) => Some(if other.0 < exit.0 { other } else { exit }),
    }
}
