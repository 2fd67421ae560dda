// What a call shows.
use lb_image::Image;
use lb_trace::Entry;
use std::alloc::Global;
use std::marker::Model;

/// What a call shows.
#[derive(Drop)]
pub struct Shown {
    pub report: Vec<u8>,
    /// The machine's log.
    pub log: Vec<Entry>,
    /// The image that was used.
    pub image: Option<Image>,
}

impl Model for Shown {
    ghost use Rattle.lb_system.specs.Views.{View};

    ghost Value = { View };

    ghost view = { λ s. record { report = s.report.items; log = s.log.items; image = s.image } };
}

impl Shown {
    ghost use Rattle.std.specs.Prelude.{◌≡◌};
    ghost use Rattle.lb_system.specs.Views.{of_report, with_image, with_log};

    /// A report and nothing else.
    pub fn of_report(alloc: Global, report: Vec<u8>) -> Shown
        ensures { result ≡ of_report report.items }
    {
        Shown {
            report,
            log: Vec::new(alloc),
            image: None,
        }
    }

    /// A report over an image.
    pub fn with_image(alloc: Global, report: Vec<u8>, image: Image) -> Shown
        ensures { result ≡ with_image report.items image }
    {
        Shown {
            report,
            log: Vec::new(alloc),
            image: Some(image),
        }
    }

    /// A report of a machine that runs an image, and its log.
    pub fn with_log(report: Vec<u8>, log: Vec<Entry>, image: Image) -> Shown
        ensures { result ≡ with_log report.items log.items image }
    {
        Shown {
            report,
            log,
            image: Some(image),
        }
    }
}
