//! A table of single errors as shots: the bits that each single error flips.
ghost use Rattle.std.specs.Prelude.{◌≡◌, ◌≤◌, ◌<◌, All, length, replicate, false, true, OnOk};
ghost use Rattle.std.specs.List.{flat_map};
ghost use Rattle.stab_io.specs.Devices.{WritesAllOrFault};
ghost use Rattle.stab_results.specs.Formats.{shot_bytes, detector_bits_of};
ghost use Rattle.stab_report.specs.SingleErrorTables.{set_all};

use stab_io::{Fault, Output};
use stab_regions::SingleErrorTable;
use stab_results::{Format, Kinds, write_shot};

/// Sets the bits at these positions.
fn set_all(bits: &mut [bool], positions: &[u32], value: bool)
    requires in_range { All (λ k. k < length bits.old) positions.now }
    ensures value { bits.new ≡ set_all positions.now value bits.old }
{
    for position in positions {
        bits[*position as usize] = value;
    }
}

/// Writes the shot of a row, of bits that are 0, and sets them back to 0.
pub fn write_row<O: Output>(
    out: &mut O,
    format: Format,
    kinds: Kinds,
    bits: &mut [bool],
    row: &[u32],
) -> Result<(), Fault>
    requires in_range { All (λ k. k < length bits.old) row.now }
    requires zero { bits.old ≡ replicate (length bits.old) false }
    requires within { detector_bits_of kinds ≤ length bits.old }
    ensures writes { WritesAllOrFault (O.seen out.old) (O.seen out.new) (shot_bytes format kinds (set_all row.now true bits.old)) result }
    ensures same { OnOk result (bits.new ≡ bits.old) }
{
    set_all(bits, row, true);
    write_shot(out, format, kinds, bits)?;
    set_all(bits, row, false);
    Ok(())
}

/// Writes a table, a shot for each single error, by bits that are 0.
pub fn write_shots<O: Output>(
    out: &mut O,
    format: Format,
    kinds: Kinds,
    bits: &mut [bool],
    table: &SingleErrorTable,
) -> Result<(), Fault>
    requires in_range { All (All (λ k. k < length bits.old)) table.now.rows }
    requires zero { bits.old ≡ replicate (length bits.old) false }
    requires within { detector_bits_of kinds ≤ length bits.old }
    ensures writes { WritesAllOrFault (O.seen out.old) (O.seen out.new) (flat_map (λ row. shot_bytes format kinds (set_all row true bits.old)) table.now.rows) result }
{
    for single_error in 0..table.len() {
        write_row(out, format, kinds, bits, table.row(single_error))?;
    }
    Ok(())
}
