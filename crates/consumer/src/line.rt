//! The program's line on standard error, made in place: it takes no memory.

ghost use Rattle.std.specs.Prelude.{◌≡◌, ◌+◌, ◌++◌, ◌<◌, ◌≤◌, length};
ghost use Rattle.arrayvec.specs.ArrayString.{array_string_len};
ghost use Rattle.consumer.specs.Lines.{place_bytes, reason_bytes};

use crate::reason::{MAX_REASON, Place, Reason};
use arrayvec::ArrayString;
use itoa::{Buffer, Integer};

/// Room for a text and two numbers with their labels.
pub const ROOM: usize = 160;

/// A line of the program, without its line feed.
pub type Line = ArrayString<ROOM>;

/// The line that says why there is no answer.
///
/// ```text
/// let text = "dreplay: trace refused: Trace 4";
/// let place = Place::Row(9);
/// reason_line(Reason { text, place }).as_str(); // `dreplay: trace refused: Trace 4 row 9`
/// ```
pub fn reason_line(reason: Reason) -> Line
    ensures bytes { result.bytes ≡ reason_bytes reason }
    ensures room { array_string_len result < ROOM }
{
    let mut line = Line::new();
    line.push_str(reason.text);
    push_place(&mut line, reason.place);
    line
}

// Appends where a fault is.
fn push_place(line: &mut Line, place: Place)
    requires { array_string_len line.old ≤ MAX_REASON }
    ensures bytes { line.new.bytes ≡ line.old.bytes ++ place_bytes place }
    ensures room { array_string_len line.new < ROOM }
{
    match place {
        Place::Nowhere => {}
        Place::Line(number) => push_number(line, " line ", number),
        Place::Row(row) => push_number(line, " row ", row),
        Place::Field { row, column } => {
            push_number(line, " row ", row);
            push_number(line, " column ", column);
        }
        Place::Thread(thread) => push_number(line, " thread ", thread),
    }
}

// Appends a label and its number.
fn push_number<I: Integer>(line: &mut Line, label: &str, number: I)
    requires { array_string_len line.old + length label.now + 40 ≤ ROOM }
    ensures bytes { line.new.bytes ≡ line.old.bytes ++ label.now ++ I.text number }
    ensures few { array_string_len line.new ≤ array_string_len line.old + length label.now + 40 }
{
    let mut digits = Buffer::new();
    line.push_str(label);
    line.push_str(digits.format(number));
}
