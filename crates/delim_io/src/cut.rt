ghost use Rattle.std.specs.Prelude.{◌≡◌, ◌<◌, [], ◌∷◌, length, MatchOption, IfSome};
ghost use Rattle.delim_io.specs.Input.{parts_at};

use memchr::memchr;

/// What stands before the first such byte of a text and what stands after it, or `None` where there
/// is none.
pub(crate) fn cut(text: &[u8], byte: u8) -> Option<(&[u8], &[u8])>
    ensures parts { MatchOption result
        (parts_at byte text.now ≡ text.now ∷ [])
        (λ x. parts_at byte text.now ≡ x.0.now ∷ parts_at byte x.1.now) }
    ensures shorter { IfSome result (λ x. length x.1.now < length text.now) }
{
    match memchr(byte, text) {
        None => None,
        Some(at) => Some((&text[..at], &text[at + 1..])),
    }
}
