ghost use Rattle.std.specs.Prelude.{◌≡◌, ◌+◌, ◌≤◌, length, take, drop};
ghost use Rattle.std.specs.Int.{w16, w64, from_be_bytes, to_be_bytes, cast_signed, cast_unsigned};

use span_bytes::span::Span;

/// The Long that eight bytes write from a place on, the high byte first, in two's complement. They
/// are read at once where they lie in one piece.
pub fn long_at<X: Span>(row: &X, start: usize) -> i64
    requires { start + 8 ≤ length (X.seen row.now) }
    ensures value { result ≡ cast_signed w64 (from_be_bytes w64 (take 8 (drop start (X.seen row.now)))) }
    ensures bytes { to_be_bytes w64 (cast_unsigned w64 result) ≡ take 8 (drop start (X.seen row.now)) }
{
    let bytes = eight_bytes(row, start);
    i64::from_be_bytes(bytes)
}

/// The eight bytes from a place on.
fn eight_bytes<X: Span>(row: &X, start: usize) -> [u8; 8]
    requires { start + 8 ≤ length (X.seen row.now) }
    ensures { result ≡ take 8 (drop start (X.seen row.now)) }
{
    if let Some(bytes) = row.piece(start).first_chunk::<8>() {
        return *bytes;
    }
    // So no place below overflows.
    let end = row.len();
    prove!(8 <= end && start <= end - 8);
    [
        row.at(start),
        row.at(start + 1),
        row.at(start + 2),
        row.at(start + 3),
        row.at(start + 4),
        row.at(start + 5),
        row.at(start + 6),
        row.at(start + 7),
    ]
}

/// The number that two bytes write from a place on, the high byte first.
pub(crate) fn length_at<X: Span>(row: &X, start: usize) -> u16
    requires { start + 2 ≤ length (X.seen row.now) }
    ensures value { result ≡ from_be_bytes w16 (take 2 (drop start (X.seen row.now))) }
    ensures bytes { to_be_bytes w16 result ≡ take 2 (drop start (X.seen row.now)) }
{
    let bytes = two_bytes(row, start);
    u16::from_be_bytes(bytes)
}

/// The two bytes from a place on.
fn two_bytes<X: Span>(row: &X, start: usize) -> [u8; 2]
    requires { start + 2 ≤ length (X.seen row.now) }
    ensures { result ≡ take 2 (drop start (X.seen row.now)) }
{
    if let Some(bytes) = row.piece(start).first_chunk::<2>() {
        return *bytes;
    }
    // So no place below overflows.
    let end = row.len();
    prove!(2 <= end && start <= end - 2);
    [row.at(start), row.at(start + 1)]
}
