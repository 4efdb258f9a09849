//! What is shown of a shot.
ghost use Rattle.std.specs.Prelude.{◌≡◌, ℕ, ◌≤◌, length, IfOk};
ghost use Rattle.stab_results.specs.Formats.{detector_bits_of};
ghost use Rattle.stab_run.specs.Runs.{State};
ghost use Rattle.stab_report.specs.Texts.{texts_from as of_shots};
ghost use Rattle.stab_commands.specs.Sendings.{IsShown, shown_bytes, shown_kinds, shown_items};
ghost use Rattle.stab_report.specs.Endings.{SendsUnflushed};

use stab_io::{Fault, Output};
use stab_recording::Shot;
use stab_results::{Format, Kinds, write_shot};
use std::alloc::AllocError;

/// Which bits of a shot are shown.
#[derive(Clone, Copy, Debug, PartialEq, Eq)]
pub enum Shown {
    /// The records.
    Records,
    /// The detectors.
    Detectors,
    /// The detectors, and after them the observables.
    DetectorsAndObservables,
}

/// What is shown of a shot, and what kinds of bits it is.
#[derive(Drop)]
pub(crate) struct Bits {
    pub kinds: Kinds,
    pub items: Vec<bool>,
}

/// What is shown of a shot, by its records, detectors and observables.
fn shown_of(
    records: Vec<bool>,
    mut detectors: Vec<bool>,
    observables: Vec<bool>,
    shown: Shown,
) -> Result<Bits, AllocError>
    ensures within { IfOk result (λ b. detector_bits_of b.kinds ≤ length b.items.items) }
    ensures kinds { IfOk result (λ b. b.kinds ≡ shown_kinds shown (length detectors.items)) }
    ensures items { IfOk result (λ b. b.items.items ≡ shown_items shown records.items detectors.items observables.items) }
{
    let kinds = Kinds::Detectors(detectors.len());
    match shown {
        Shown::Records => Ok(Bits {
            kinds: Kinds::Measurements,
            items: records,
        }),
        Shown::Detectors => Ok(Bits {
            kinds,
            items: detectors,
        }),
        Shown::DetectorsAndObservables => {
            detectors.extend_from_slice(observables.as_slice())?;
            Ok(Bits {
                kinds,
                items: detectors,
            })
        }
    }
}

/// Writes bits this many times.
fn write_copies<O: Output>(
    out: &mut O,
    format: Format,
    bits: &Bits,
    copies: usize,
) -> Result<(), Fault>
    requires within { detector_bits_of bits.now.kinds ≤ length bits.now.items.items }
    ensures sends { (first : ℕ) (shown : Shown) (run : State) → IsShown shown run bits.now.kinds bits.now.items.items → SendsUnflushed (of_shots (λ shot. shown_bytes format shown run) first copies) (O.seen out.old) (O.seen out.new) result }
{
    for written in 0..copies {
        write_shot(out, format, bits.kinds, bits.items.as_slice())?;
    }
    Ok(())
}

/// Writes what is shown of a shot this many times.
pub(crate) fn write_shown<O: Output>(
    out: &mut O,
    format: Format,
    shown: Shown,
    shot: Shot,
    copies: usize,
) -> Result<(), Fault>
    ensures sends { (first : ℕ) (run : State) → shot.records.items ≡ run.records → shot.detectors.items ≡ run.detectors → shot.observables.items ≡ run.observables → SendsUnflushed (of_shots (λ n. shown_bytes format shown run) first copies) (O.seen out.old) (O.seen out.new) result }
{
    let Shot {
        records,
        detectors,
        observables,
        ..
    } = shot;
    let bits = shown_of(records, detectors, observables, shown)?;
    write_copies(out, format, &bits, copies)
}
