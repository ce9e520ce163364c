// How often a device failed.
ghost use Rattle.std.specs.Prelude.{◌≡◌};
ghost use Rattle.hc_client_records.specs.Records as records;

use hc_history::{Note, Said};

/// How many results of the device are failures.
#[must_use]
pub fn failures(log: &[Note]) -> usize
    ensures { result ≡ records.failures log.now }
{
    let mut count = 0;
    for note in log {
        count += usize::from(is_failed(note));
    }
    count
}

fn is_failed(note: &Note) -> bool
    ensures { result ≡ records.is_failed note.now }
{
    matches!(
        &note.said,
        Said::Read { result: None, .. }
            | Said::Wrote {
                is_written: false,
                ..
            }
    )
}
