//! Plain rows that several workers read: each has a piece of the bytes, and two pieces share the
//! end of the row between them.

ghost use Rattle.std.specs.Prelude.{◌≡◌, ◌<◌, ◌≤◌, ◌+◌, ◌-◌, [], true, IfSome, drop};
ghost use Rattle.std.specs.Prelude.{length, option_map, slice_get};
ghost use Rattle.firings.specs.Firings.{last_number, number_of};
ghost use Rattle.firing_reader.specs.Plain.{BeginsAtEnd};
ghost use Rattle.firing_reader.specs.Pieces.{AreCut, ArePieces, PassesRows};

use crate::builder::FiringsBuilder;
use crate::plain::front::is_end;
use crate::plain::read_plain;
use firings::MAX_ROWS;
use keyed_hash::HashKey;
use std::alloc::{AllocError, Global};

/// Rows that a worker reads apart from those before them.
#[derive(Drop)]
pub(crate) struct Piece {
    pub(crate) firings: FiringsBuilder,
    // The index of the row's end that ends its bytes, and with which the next piece begins.
    pub(crate) end: usize,
    // How many of its bytes come before what is left.
    pub(crate) passed: usize,
}

/// Pieces without bytes, this many.
pub(crate) fn no_pieces(
    alloc: Global,
    hash_key: HashKey,
    count: u32,
) -> Result<Vec<Piece>, AllocError> {
    let mut pieces = Vec::new(alloc);
    for _ in 0..count {
        let firings = FiringsBuilder::new(alloc, hash_key)?;
        pieces.push(Piece {
            firings,
            end: 0,
            passed: 0,
        })?;
    }
    Ok(pieces)
}

/// Reads a piece apart from the firings before it.
pub(crate) fn read_piece(piece: &mut Piece, bytes: &[u8])
    requires { BeginsAtEnd bytes.now }
    ensures piece { PassesRows [] bytes.now piece.new.firings piece.new.passed }
    ensures end { piece.new.end + 1 ≡ length bytes.now }
{
    piece.firings.clear();
    piece.passed = read_plain(&mut piece.firings, bytes);
    piece.end = bytes.len() - 1;
}

/// Cuts bytes at the first end of a row from an index on, or else at the first of all: both parts
/// have that end. After the byte that ends a row, others only end empty lines.
pub(crate) fn cut_near(bytes: &[u8], from: usize) -> (&[u8], &[u8])
    requires { BeginsAtEnd bytes.now }
    ensures cut { AreCut bytes.now result.0.now result.1.now }
    ensures last { result.1.now ≡ drop (length result.0.now - 1) bytes.now }
{
    for at in from..bytes.len() {
        if is_end(bytes[at]) && (at == 0 || !is_end(bytes[at - 1])) {
            return (&bytes[..at + 1], &bytes[at..]);
        }
    }
    (&bytes[..1], bytes)
}

// Whether a trace may have the second after the first.
fn goes_after(first: &FiringsBuilder, second: &FiringsBuilder) -> bool
    ensures few { result ≡ true → length first.now + length second.now ≤ MAX_ROWS }
    ensures rises { result ≡ true → IfSome (option_map number_of (slice_get second.now 0))
        (λ number. last_number first.now < number) }
{
    if first.len().saturating_add(second.len()) > MAX_ROWS as usize {
        return false;
    }
    match second.first_number() {
        Some(number) => first.last_number() < number,
        None => true,
    }
}

// Adds the rows of a piece to the firings before it. If they don't go after these, it reads them
// as far as they do. It returns how many bytes come before what is left, or None if memory is
// refused.
fn add_piece(firings: &mut FiringsBuilder, piece: &Piece, bytes: &[u8]) -> Option<usize>
    requires feed { BeginsAtEnd bytes.now }
    requires piece { PassesRows [] bytes.now piece.now.firings piece.now.passed }
    ensures { IfSome result (PassesRows firings.old bytes.now firings.new) }
{
    if !goes_after(firings, &piece.firings) {
        return Some(read_plain(firings, bytes));
    }
    firings.append(&piece.firings)?;
    Some(piece.passed)
}

/// Adds the rows of pieces to the firings before them. It returns how many bytes come before what
/// is left, or None if memory is refused.
#[cycle(adding)]
pub(crate) fn add_pieces(
    firings: &mut FiringsBuilder,
    pieces: &[Piece],
    bytes: &[u8],
) -> Option<usize>
    requires { ArePieces pieces.now bytes.now }
    ensures { IfSome result (PassesRows firings.old bytes.now firings.new) }
{
    let Some((piece, others)) = pieces.split_first() else {
        return Some(read_plain(firings, bytes));
    };
    let passed = add_piece(firings, piece, &bytes[..piece.end + 1])?;
    if passed < piece.end {
        return Some(passed);
    }
    let more = add_pieces(firings, others, &bytes[piece.end..])?;
    Some(piece.end + more)
}
