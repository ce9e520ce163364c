// The lines of a text.
ghost use Rattle.std.specs.Prelude.{◌≡◌, ◌<◌, ◌∷◌, [], length, MatchOption, IfSome};
ghost use Rattle.hc_trace_text.specs.Lines.{lines_of};

use memchr::memchr;

/// The first line, and what is behind its line feed. None where no byte is left.
pub fn first_line(bytes: &[u8]) -> Option<(&[u8], &[u8])>
    ensures line { MatchOption result (bytes.now ≡ []) (λ p. lines_of bytes.now ≡ p.0.now ∷ lines_of p.1.now) }
    ensures shorter { IfSome result (λ p. length p.1.now < length bytes.now) }
{
    if bytes.is_empty() {
        return None;
    }
    match memchr(b'\n', bytes) {
        Some(at) => Some((&bytes[..at], &bytes[at + 1..])),
        None => Some((bytes, &[])),
    }
}
