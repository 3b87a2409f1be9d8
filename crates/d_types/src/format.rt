//! The formats of printf.

ghost use Rattle.std.specs.Prelude.{◌≡◌, IfOk, OnOk, option_map, []};
ghost use Rattle.d_types.specs.{Typed.typeds_of};
ghost use Rattle.d_types.specs.Formats as spec;
ghost use Rattle.d_types.specs.Steps.Formats as steps;

use crate::limits::MAX_WIDTH;
use crate::typed::{Conversion, Letter, Piece, TypedExpr};
use d_values::DType;
use std::alloc::{AllocError, Global};

/// A conversion as far as it was read.
#[derive(Clone, Copy)]
pub struct Flags {
    pub left: bool,
    pub zeros: bool,
    pub width: u8,
}

// No flag and no width.
const NO_FLAGS: Flags = Flags {
    left: false,
    zeros: false,
    width: 0,
};

/// Where a byte of a format is.
#[derive(Clone, Copy)]
pub enum Place {
    Outside,
    /// After a percent sign.
    Opened,
    Flagged(Flags),
    /// After a digit of the width.
    Width(Flags),
    /// After `h`.
    Half(Flags),
    /// After `l`.
    Long(Flags),
    /// After `hh` or `ll`.
    Sized(Flags),
}

// What a byte does: where the next one is, and the piece that it ends. None if the byte can't
// be there.
type Turn = Option<(Place, Option<Piece>)>;

fn letter_of(byte: u8) -> Option<Letter>
    ensures { result ≡ steps.letter_of byte }
{
    match byte {
        b'd' | b'i' => Some(Letter::Signed),
        b'u' => Some(Letter::Unsigned),
        b'x' => Some(Letter::Hexadecimal),
        b'o' => Some(Letter::Octal),
        b's' => Some(Letter::Text),
        _ => None,
    }
}

fn at_letter(flags: Flags, byte: u8) -> Turn
    ensures { result ≡ steps.at_letter flags byte }
{
    match letter_of(byte) {
        Some(letter) => {
            let conversion = Conversion {
                left: flags.left,
                zeros: flags.zeros,
                width: flags.width,
                letter,
            };
            Some((Place::Outside, Some(Piece::Argument(conversion))))
        }
        None => None,
    }
}

fn at_length(flags: Flags, byte: u8) -> Turn
    ensures { result ≡ steps.at_length flags byte }
{
    if byte == b'h' {
        Some((Place::Half(flags), None))
    } else if byte == b'l' {
        Some((Place::Long(flags), None))
    } else {
        at_letter(flags, byte)
    }
}

fn at_width(flags: Flags, byte: u8) -> Turn
    ensures { result ≡ steps.at_width flags byte }
{
    if !byte.is_ascii_digit() {
        return at_length(flags, byte);
    }
    let width = u16::from(flags.width) * 10 + u16::from(byte - b'0');
    if width > MAX_WIDTH {
        return None;
    }
    let width = width as u8;
    Some((Place::Width(Flags { width, ..flags }), None))
}

fn at_flags(flags: Flags, byte: u8) -> Turn
    ensures { result ≡ steps.at_flags flags byte }
{
    if byte == b'-' {
        let left = true;
        Some((Place::Flagged(Flags { left, ..flags }), None))
    } else if byte == b'0' {
        let zeros = true;
        Some((Place::Flagged(Flags { zeros, ..flags }), None))
    } else {
        at_width(flags, byte)
    }
}

fn turn(place: Place, byte: u8) -> Turn
    ensures { result ≡ steps.turn place byte }
{
    match place {
        Place::Outside if byte == b'%' => Some((Place::Opened, None)),
        Place::Outside => Some((Place::Outside, Some(Piece::Byte(byte)))),
        Place::Opened if byte == b'%' => Some((Place::Outside, Some(Piece::Byte(byte)))),
        Place::Opened => at_flags(NO_FLAGS, byte),
        Place::Flagged(flags) => at_flags(flags, byte),
        Place::Width(flags) => at_width(flags, byte),
        Place::Half(flags) if byte == b'h' => Some((Place::Sized(flags), None)),
        Place::Long(flags) if byte == b'l' => Some((Place::Sized(flags), None)),
        Place::Half(flags) | Place::Long(flags) | Place::Sized(flags) => at_letter(flags, byte),
    }
}

fn is_outside(place: Place) -> bool
    ensures { result ≡ steps.is_outside place }
{
    matches!(place, Place::Outside)
}

fn add(pieces: &mut Vec<Piece>, ended: Option<Piece>) -> Result<(), AllocError>
    ensures ok { OnOk result (pieces.new.items ≡ steps.with_piece pieces.old.items ended) }
{
    if let Some(piece) = ended {
        pieces.push(piece)?;
    }
    Ok(())
}

/// The pieces of a format. None if it has an unknown conversion.
pub(crate) fn pieces(alloc: Global, format: &[u8]) -> Result<Option<Vec<Piece>>, AllocError>
    ensures ok { IfOk result (λ ps. option_map (λ v. v.items) ps ≡ steps.pieces format.now) }
{
    let mut done = Vec::new(alloc);
    let mut place = Place::Outside;
    for byte in format {
        let Some((next, ended)) = turn(place, *byte) else {
            return Ok(None);
        };
        add(&mut done, ended)?;
        place = next;
    }
    if is_outside(place) {
        Ok(Some(done))
    } else {
        Ok(None)
    }
}

fn takes(letter: Letter, t: DType) -> bool
    ensures { result ≡ spec.takes_type letter t }
{
    match letter {
        Letter::Signed | Letter::Unsigned | Letter::Hexadecimal | Letter::Octal => {
            matches!(t, DType::Int(_))
        }
        Letter::Text => matches!(t, DType::Text),
    }
}

/// Whether there is an argument for each conversion, of its kind.
pub(crate) fn arguments_fit(pieces: &[Piece], args: &[TypedExpr]) -> bool
    ensures { result ≡ spec.fit pieces.now (typeds_of args.now) }
{
    match pieces {
        [] => args.is_empty(),
        [Piece::Byte(_), others @ ..] => arguments_fit(others, args),
        [Piece::Argument(conversion), others @ ..] => match args {
            [] => false,
            [first, rest @ ..] => {
                takes(conversion.letter, first.type_of()) && arguments_fit(others, rest)
            }
        },
    }
}
