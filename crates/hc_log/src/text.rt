// A log as text.
ghost use Rattle.std.specs.Prelude.{◌≡◌, ◌++◌, ◌∷◌, [], map, OnOk};
ghost use Rattle.std.specs.Fmt.{decimal};
ghost use Rattle.std.specs.List.{concat};
ghost use Rattle.hc_log_text.specs.Text.{behind};
ghost use Rattle.hc_log.specs.Text.{pool_line, flash_line, note_line, log_text};

use hc_history::Note;
use hc_log_text::{write_flash, write_note};
use hc_trace_text::{add_number, add_word};
use hc_types::{Config, FlashConfig, PoolSize};
use std::alloc::{AllocError, Global};

// A space, and a number.
fn add_field(out: &mut Vec<u8>, number: u64) -> Result<(), AllocError>
    ensures { OnOk result (out.new.items ≡ out.old.items ++ behind (decimal number ∷ [])) }
{
    out.extend_from_slice(b" ")?;
    add_number(out, number)
}

// The line of a pool.
fn add_pool(out: &mut Vec<u8>, size: PoolSize) -> Result<(), AllocError>
    ensures { OnOk result (out.new.items ≡ out.old.items ++ pool_line size) }
{
    out.extend_from_slice(b"pool")?;
    add_field(out, size.bytes)?;
    add_field(out, size.items)?;
    out.extend_from_slice(b"\n")
}

// The lines of the pools.
fn add_pools(out: &mut Vec<u8>, pools: &[PoolSize]) -> Result<(), AllocError>
    ensures { OnOk result (out.new.items ≡ out.old.items ++ concat (map pool_line pools.now)) }
{
    'pools: for size in pools {
        add_pool(out, *size)?;
    }
    Ok(())
}

// The line that ends the configuration.
fn add_flash(out: &mut Vec<u8>, flash: &Option<FlashConfig>) -> Result<(), AllocError>
    ensures { OnOk result (out.new.items ≡ out.old.items ++ flash_line flash.now) }
{
    match flash {
        Some(flash) => write_flash(out, flash),
        None => add_word(out, b"noflash"),
    }
}

// The line of a note. A trace says no note that a line can't.
fn add_note(alloc: Global, out: &mut Vec<u8>, note: &Note) -> Result<(), AllocError>
    ensures { OnOk result (out.new.items ≡ out.old.items ++ note_line note.now) }
{
    match write_note(alloc, out, note) {
        Ok(()) => Ok(()),
        Err(_) => Err(AllocError),
    }
}

// The lines of the notes.
fn add_notes(alloc: Global, out: &mut Vec<u8>, notes: &[Note]) -> Result<(), AllocError>
    ensures { OnOk result (out.new.items ≡ out.old.items ++ concat (map note_line notes.now)) }
{
    'notes: for note in notes {
        add_note(alloc, out, note)?;
    }
    Ok(())
}

/// Adds the log of a cache of this configuration: the lines of the configuration, and one for each note.
pub fn add_log(
    alloc: Global,
    out: &mut Vec<u8>,
    config: &Config,
    notes: &[Note],
) -> Result<(), AllocError>
    ensures { OnOk result (out.new.items ≡ out.old.items ++ log_text config.now notes.now) }
{
    add_pools(out, &config.pools)?;
    add_flash(out, &config.flash)?;
    add_notes(alloc, out, notes)
}
