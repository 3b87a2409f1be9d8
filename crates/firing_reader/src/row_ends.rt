//! Where the rows of bytes end, as csv reads them.

ghost use Rattle.std.specs.Prelude.{◌≡◌, ◌≤◌, length, take};
ghost use Rattle.firing_reader.specs.Steps.RowEnds.{RowsEnd, place_after, plain_after};

// Where csv is after a byte.
#[derive(Clone, Copy)]
enum Place {
    // Between two rows.
    Between,
    // Where a field starts.
    Start,
    // In a field, outside quotes.
    Field,
    // In quotes.
    Quoted,
    // After a quote in quotes, which ends them unless another one follows.
    Quote,
}

// Where a byte outside quotes, which is no quote, leads.
fn after_plain(byte: u8) -> Place
    ensures { result ≡ plain_after byte }
{
    match byte {
        b',' => Place::Start,
        b'\n' | b'\r' => Place::Between,
        _ => Place::Field,
    }
}

// Where a byte leads from a place.
fn after(place: Place, byte: u8) -> Place
    ensures { result ≡ place_after place byte }
{
    match place {
        Place::Field => after_plain(byte),
        Place::Quoted => {
            if byte == b'"' {
                Place::Quote
            } else {
                Place::Quoted
            }
        }
        Place::Between | Place::Start | Place::Quote => {
            if byte == b'"' {
                Place::Quoted
            } else {
                after_plain(byte)
            }
        }
    }
}

/// How many bytes there are up to the end of the first row that ends after `enough` bytes, or else
/// to that of the last whole row; 0 if no row ends.
pub(crate) fn end_of_rows(bytes: &[u8], enough: usize) -> usize
    ensures count { result ≤ length bytes.now }
    ensures ends { RowsEnd (take result bytes.now) }
{
    let mut place = Place::Between;
    let mut end = 0;
    for at in 0..bytes.len() {
        place = after(place, bytes[at]);
        if let Place::Between = place {
            end = at + 1;
            if end >= enough {
                return end;
            }
        }
    }
    end
}
