// Laws of the definitions on images.
ghost use Rattle.lb_image.specs.Laws.{FaultOrImage, OneSpelling};

/// Two images in range have the same bytes only where they are the same.
pub fn one_spelling()
    ensures { OneSpelling }
{}

/// Bytes have no fault exactly where they are those of an image in range.
pub fn fault_or_image()
    ensures { FaultOrImage }
{}
