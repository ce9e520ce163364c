// Where two texts differ.
ghost use Rattle.std.specs.Prelude.{◌≡◌, ◌≢◌, MatchOption};
ghost use Rattle.hc_golden.specs.Difference.{line_of_difference};

// The line of the first byte in which the texts differ, or at which one of them ends.
fn difference_in(got: &[u8], want: &[u8]) -> Option<usize>
    ensures { result ≡ line_of_difference got.now want.now }
{
    let mut line: usize = 1;
    let mut rest = want;
    'bytes: for byte in got {
        let [first, later @ ..] = rest else {
            return Some(line);
        };
        if *first != *byte {
            return Some(line);
        }
        line += usize::from(*byte == b'\n');
        rest = later;
    }
    if rest.is_empty() { None } else { Some(line) }
}

/// The line, counted from 1, of the first byte in which the texts differ, or at which one of them ends. None where they
/// are equal.
pub fn first_difference(got: &[u8], want: &[u8]) -> Option<usize>
    ensures line { result ≡ line_of_difference got.now want.now }
    ensures equal { MatchOption result (got.now ≡ want.now) (λ _. got.now ≢ want.now) }
{
    difference_in(got, want)
}
