// The words of an image, one by one.
ghost use Rattle.std.specs.Prelude.{◌≡◌};
ghost use Rattle.lb_image.specs.Fields.{is_in, numbers, multiples};

use crate::error::ImageKind;

/// The word whose bytes are `LBIM`.
pub(crate) const MAGIC: u32 = 0x4D49_424C;

/// The version of the format.
pub(crate) const VERSION: u32 = 1;

/// Which values a field may have.
#[derive(Clone, Copy, Debug)]
pub(crate) enum FieldRange {
    /// The numbers from `least` to `most`.
    Numbers { least: u32, most: u32 },
    /// The multiples of 4 below `below`.
    Multiples { below: u32 },
}

impl FieldRange {
    // Whether it may have this value.
    pub(crate) fn contains(self, word: u32) -> bool
        ensures { result ≡ is_in self word }
    {
        match self {
            FieldRange::Numbers { least, most } => least <= word && word <= most,
            FieldRange::Multiples { below } => word % 4 == 0 && word < below,
        }
    }
}

/// A word of an image: which values it may have, and the fault of any other.
#[derive(Clone, Copy, Debug)]
pub(crate) struct Field {
    pub kind: ImageKind,
    pub range: FieldRange,
}

impl Field {
    // A field of the numbers from `least` to `most`.
    pub(crate) fn numbers(kind: ImageKind, least: u32, most: u32) -> Field
        ensures { result ≡ numbers kind least most }
    {
        Field {
            kind,
            range: FieldRange::Numbers { least, most },
        }
    }

    // A field of the multiples of 4 below `below`.
    pub(crate) fn multiples(kind: ImageKind, below: u32) -> Field
        ensures { result ≡ multiples kind below }
    {
        Field {
            kind,
            range: FieldRange::Multiples { below },
        }
    }
}
