// A frame of the network.
ghost use Rattle.std.specs.Prelude.{◌≡◌};

use std::marker::Model;

/// An Ethernet frame as it comes in from the network, from its destination address on and without its check
/// sequence. Contracts see its bytes as a list.
#[derive(Debug, Drop)]
pub struct Frame {
    bytes: Vec<u8>,
    error: bool,
}

impl Model for Frame {
    ghost use Rattle.lb_trace.specs.Frame.{FrameContent};

    ghost Value = { FrameContent };

    ghost view = { λ f. record { bytes = f.bytes.items; error = f.error } };
}

impl Frame {
    /// A frame of these bytes; `error` says that the network chip marks it as faulty. It takes no memory.
    pub fn new(bytes: Vec<u8>, error: bool) -> Frame
        ensures { result ≡ record { bytes = bytes.items; error = error } }
    {
        Frame { bytes, error }
    }

    /// Its bytes.
    pub fn bytes(&self) -> &[u8]
        ensures { result.now ≡ self.now.bytes }
    {
        &self.bytes
    }

    /// Whether the network chip marks it as faulty.
    pub fn error(&self) -> bool
        ensures { result ≡ self.now.error }
    {
        self.error
    }
}
