use crate::coordinates::Coordinates;
use crate::located::Located;
use crate::range::Lookbacks;
use std::alloc::{AllocError, Global};
use std::marker::Model;

/// How many bytes of coordinates are stored without memory of their own.
pub const SHORT_COORDINATES: usize = 13;

/// How many records are stored without memory of their own.
pub const FEW_RECORDS: usize = 2;

/// The records of a detector, and the coordinates before them.
///
/// Most detectors look at one record or two: few records after short coordinates take no memory.
pub struct DetectorTargets {
    form: Form,
}

/// How they are stored.
#[derive(Drop)]
enum Form {
    /// As many of the bytes of the coordinates' text, and of the numbers k of `rec[-k]`, as are given, from the first on.
    Short {
        bytes: u8,
        numbers: u8,
        text: [u8; 13],
        records: [u32; 2],
    },
    Long(Located<Lookbacks>),
}

// Written out, so that a proof sees the drop of a value as one call, and not one for each of its parts.
impl Drop for DetectorTargets {
    fn drop(self) {
        let DetectorTargets { form: _ } = self;
    }
}

impl Model for DetectorTargets {
    ghost use Rattle.std.specs.Prelude.{ℕ, List};

    ghost Value = { List (List ℕ) × List ℕ };

    ghost use Rattle.stab_instructions.specs.inner.DetectorForms.{form_coordinates, form_records, IsForm};

    ghost view = { λ d. (form_coordinates d.form, form_records d.form) };

    ghost invariant = { λ d. IsForm d.form };
}

impl Form {
    ghost use Rattle.std.specs.Prelude.{◌≡◌, ◌≤◌, length, All};
    ghost use Rattle.stab_instructions.specs.Lookbacks.{IsLookback};
    ghost use Rattle.stab_instructions.specs.Words.{arguments_of};
    ghost use Rattle.stab_instructions.specs.inner.DetectorForms.{form_coordinates, form_records, IsForm};

    /// A copy of few bytes and of few numbers.
    fn short(written: &[u8], found: &[u32]) -> Form
        requires short { length written.now ≤ 13 }
        requires few { length found.now ≤ 2 }
        requires each { All IsLookback found.now }
        ensures coordinates { form_coordinates result ≡ arguments_of written.now }
        ensures records { form_records result ≡ found.now }
        ensures preserved { IsForm result }
    {
        let mut text = [0; SHORT_COORDINATES];
        text[..written.len()].copy_from_slice(written);
        let mut records = [0; FEW_RECORDS];
        records[..found.len()].copy_from_slice(found);
        Form::Short {
            bytes: written.len() as u8,
            numbers: found.len() as u8,
            text,
            records,
        }
    }
}

impl DetectorTargets {
    ghost use Rattle.std.specs.Prelude.{◌≡◌, ◌≤◌, length, All, IfOk};
    ghost use Rattle.std.specs.Bool.{OnTrue};
    ghost use Rattle.stab_instructions.specs.Lookbacks.{IsLookback};
    ghost use Rattle.stab_instructions.specs.Words.{arguments_of};

    /// Few records after coordinates that are written with few bytes, which take no memory.
    pub fn few(written: &[u8], records: &[u32]) -> DetectorTargets
        requires short { length written.now ≤ 13 }
        requires few { length records.now ≤ 2 }
        requires each { All IsLookback records.now }
        ensures value { result ≡ (arguments_of written.now, records.now) }
    {
        DetectorTargets {
            form: Form::short(written, records),
        }
    }

    /// Records after coordinates, in memory of their own.
    pub fn long(
        alloc: Global,
        coordinates: Coordinates,
        records: Lookbacks,
    ) -> Result<DetectorTargets, AllocError>
        ensures ok { IfOk result (λ d. d ≡ (coordinates, records)) }
    {
        let located = Located::new(alloc, coordinates, records)?;
        Ok(DetectorTargets {
            form: Form::Long(located),
        })
    }

    /// What the brackets of the coordinates held.
    pub(crate) fn written(&self) -> &[u8]
        ensures value { arguments_of result.now ≡ self.now.0 }
    {
        match &self.form {
            Form::Short { bytes, text, .. } => &text[..usize::from(*bytes)],
            Form::Long(located) => located.coordinates().written(),
        }
    }

    /// The numbers k of the records.
    pub fn records(&self) -> &[u32]
        ensures value { result.now ≡ self.now.1 }
        ensures each { All IsLookback result.now }
    {
        match &self.form {
            Form::Short {
                numbers,
                records,
                ..
            } => &records[..usize::from(*numbers)],
            Form::Long(located) => located.targets().as_slice(),
        }
    }

    /// Whether the records are the same as those of another: most are, and most are in one form, so all that
    /// there is room for are compared.
    pub fn has_same_records(&self, other: &DetectorTargets) -> bool
        ensures same { OnTrue result (self.now.1 ≡ other.now.1) }
    {
        match (&self.form, &other.form) {
            (
                Form::Short {
                    numbers,
                    records,
                    ..
                },
                Form::Short {
                    numbers: count,
                    records: others,
                    ..
                },
            ) => *numbers == *count && records == others,
            _ => self.records() == other.records(),
        }
    }

    /// A copy.
    pub fn copy(&self, alloc: Global) -> Result<DetectorTargets, AllocError>
        ensures ok { IfOk result (λ d. d ≡ self.now) }
    {
        let form = match &self.form {
            Form::Short {
                bytes,
                numbers,
                text,
                records,
            } => Form::Short {
                bytes: *bytes,
                numbers: *numbers,
                text: *text,
                records: *records,
            },
            Form::Long(located) => Form::Long(located.copy(alloc)?),
        };
        Ok(DetectorTargets { form })
    }
}
