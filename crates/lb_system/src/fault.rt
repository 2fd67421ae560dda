// Why a call ends without a whole report.
ghost use Rattle.std.specs.Prelude.{◌≡◌, ◌↔◌, IsTrue, Some};
ghost use Rattle.lb_system.specs.Faults.{IsLimit, IsRuleFault, status_of};

use lb_check::{CheckError, CheckFault};
use lb_image::{ImageError, ImageFault};
use lb_lines::{LineError, LineFault};
use lb_ports::ReadAllFault;
use lb_sections::SectionsError;
use lb_text::{ReadError, TextFault};
use lb_words::JobError;
use std::alloc::AllocError;

/// How an input isn't in form.
#[derive(Clone, Copy, Debug, PartialEq, Eq)]
pub enum FormFault {
    /// It has more sections than the mode; the number of the line that is the first `%%` too
    /// many, from 1.
    Section { line: u32 },
    /// A line of a later section, or of a mode without a source, is outside its form.
    Line(LineFault),
    /// An entry of a log can't be fired; the place of the first such entry, from 0.
    Event { at: u32 },
    /// It begins as an image, and is none.
    Image(ImageFault),
}

/// Why a call ended without a whole report.
#[derive(Debug, Drop)]
pub enum Fault {
    /// The words aren't in form.
    Usage,
    /// The source is no program's text, or opens too many brackets.
    Text(TextFault),
    /// The program breaks a rule other than those on what it may ask for.
    Check(CheckFault),
    /// The program asks for too large a frame, too much code, or too much stack.
    Limit(CheckFault),
    /// The input isn't in form.
    Form(FormFault),
    /// The input couldn't be read.
    Read,
    /// The report couldn't be written whole.
    Write,
    /// The input has more bytes than it may have.
    TooLong,
    /// No memory is left.
    Memory,
}

impl Fault {
    /// The status of a call that ends with this fault, from 1 to 9.
    pub fn status(&self) -> u8
        ensures { result ≡ status_of (Some self.now) }
    {
        match self {
            Fault::Usage => 1,
            Fault::Text(_) => 2,
            Fault::Check(_) => 3,
            Fault::Limit(_) => 4,
            Fault::Form(_) => 5,
            Fault::Read => 6,
            Fault::Write => 7,
            Fault::TooLong => 8,
            Fault::Memory => 9,
        }
    }
}

impl From<AllocError> for Fault {
    ghost use Rattle.std.specs.Prelude.{◌≡◌};
    ghost use Rattle.lb_system.specs.declared.fault.Fault.TheVariants.{Memory};

    ghost from_gives = { λ _ e. e ≡ Memory };

    fn from(_: AllocError) -> Self {
        Fault::Memory
    }
}

impl From<JobError> for Fault {
    ghost use Rattle.std.specs.Prelude.{◌≡◌};
    ghost use Rattle.lb_system.specs.Faults.{words_fault};

    ghost from_gives = { λ error e. e ≡ words_fault error };

    fn from(error: JobError) -> Self {
        match error {
            JobError::Usage => Fault::Usage,
            JobError::Memory => Fault::Memory,
        }
    }
}

impl From<ReadAllFault> for Fault {
    ghost use Rattle.std.specs.Prelude.{◌≡◌};
    ghost use Rattle.lb_system.specs.Faults.{input_fault};

    ghost from_gives = { λ error e. e ≡ input_fault error };

    fn from(error: ReadAllFault) -> Self {
        match error {
            ReadAllFault::Read => Fault::Read,
            ReadAllFault::TooLong => Fault::TooLong,
            ReadAllFault::Memory => Fault::Memory,
        }
    }
}

impl From<SectionsError> for Fault {
    ghost use Rattle.std.specs.Prelude.{◌≡◌};
    ghost use Rattle.lb_system.specs.Faults.{sections_fault};

    ghost from_gives = { λ error e. e ≡ sections_fault error };

    fn from(error: SectionsError) -> Self {
        match error {
            SectionsError::TooMany { line } => Fault::Form(FormFault::Section { line }),
            SectionsError::Memory => Fault::Memory,
        }
    }
}

impl From<ReadError> for Fault {
    ghost use Rattle.std.specs.Prelude.{◌≡◌};
    ghost use Rattle.lb_system.specs.Faults.{text_fault};

    ghost from_gives = { λ error e. e ≡ text_fault error };

    fn from(error: ReadError) -> Self {
        match error {
            ReadError::Text(fault) => Fault::Text(fault),
            ReadError::Memory => Fault::Memory,
        }
    }
}

impl From<CheckError> for Fault {
    ghost use Rattle.lb_system.specs.Faults.{IsCheckFault};

    ghost from_gives = { IsCheckFault };

    fn from(error: CheckError) -> Self {
        match error {
            CheckError::Fault(fault) => of_rule(fault),
            CheckError::Memory => Fault::Memory,
        }
    }
}

impl From<LineError> for Fault {
    ghost use Rattle.std.specs.Prelude.{◌≡◌};
    ghost use Rattle.lb_system.specs.Faults.{lines_fault};

    ghost from_gives = { λ error e. e ≡ lines_fault error };

    fn from(error: LineError) -> Self {
        match error {
            LineError::Line(fault) => Fault::Form(FormFault::Line(fault)),
            LineError::Memory => Fault::Memory,
        }
    }
}

impl From<ImageError> for Fault {
    ghost use Rattle.std.specs.Prelude.{◌≡◌};
    ghost use Rattle.lb_system.specs.Faults.{image_fault};

    ghost from_gives = { λ error e. e ≡ image_fault error };

    fn from(error: ImageError) -> Self {
        match error {
            ImageError::Fault(fault) => Fault::Form(FormFault::Image(fault)),
            ImageError::Memory => Fault::Memory,
        }
    }
}

// The fault that a broken rule is.
fn of_rule(fault: CheckFault) -> Fault
    ensures { IsRuleFault fault result }
{
    if is_limit(&fault) {
        Fault::Limit(fault)
    } else {
        Fault::Check(fault)
    }
}

// Whether the rule is one on what a program may ask for.
fn is_limit(fault: &CheckFault) -> bool
    ensures { IsTrue result ↔ IsLimit fault.now }
{
    matches!(
        fault,
        CheckFault::FrameNeed { .. } | CheckFault::CodeNeed { .. } | CheckFault::StackNeed { .. }
    )
}
