// What a packet's bytes and words say.
ghost use Rattle.std.specs.Prelude.{◌≡◌, ◌≤◌, true, length};
ghost use Rattle.lb_grammar.specs.Grammar.{waiting, with_command, word_count};
ghost use Rattle.lb_grammar.specs.Packet.{command_of, is_valid};
ghost use Rattle.lb_grammar.specs.InternalRounding.{command_seen, looks_udp, looks_valid, see};

/// The command of a packet of these bytes, from the frame's destination address on, where the packet counts: the
/// network chip marks no `error`, the length is 43 to 1,520, the bytes 12 to 14 say that it is IPv4 without
/// options, and byte 23 says that it carries UDP. The command is bit 0 of byte 42: whether the lamp is to be on.
pub fn command_of_packet(error: bool, bytes: &[u8]) -> Option<bool>
    ensures { result ≡ command_of error bytes.now }
{
    if is_valid(error, bytes) {
        Some(bytes[42] % 2 == 1)
    } else {
        None
    }
}

// Whether the packet counts.
fn is_valid(error: bool, bytes: &[u8]) -> bool
    ensures valid { result ≡ is_valid error bytes.now }
    ensures long { result ≡ true → 43 ≤ length bytes.now }
{
    !error
        && (43 <= bytes.len() && bytes.len() <= 1520)
        && bytes[12] == 0x08
        && bytes[13] == 0x00
        && bytes[14] == 0x45
        && bytes[23] == 0x11
}

/// Those of a packet's words that hold a byte which is looked at.
#[derive(Clone, Copy)]
pub struct Header {
    /// How many words there were, 11 where there were more.
    pub count: u8,
    /// Bytes 12 to 15: the type of the frame, and the beginning of its header.
    pub type_word: u32,
    /// Bytes 20 to 23, the last of which is the protocol.
    pub protocol_word: u32,
    /// Bytes 40 to 43, the third of which has the command.
    pub command_word: u32,
}

impl Header {
    /// With the next word.
    pub fn with_word(self, word: u32) -> Header
        ensures { result ≡ see self word }
    {
        Header {
            count: if self.count < 11 {
                self.count + 1
            } else {
                self.count
            },
            type_word: if self.count == 3 {
                word
            } else {
                self.type_word
            },
            protocol_word: if self.count == 5 {
                word
            } else {
                self.protocol_word
            },
            command_word: if self.count == 10 {
                word
            } else {
                self.command_word
            },
        }
    }

    /// Whether the packet of this status counts.
    pub fn is_valid(self, status: u32) -> bool
        ensures { result ≡ looks_valid status self }
    {
        let length = status / 0x1_0000 % 0x4000;
        status / 0x8000 % 2 != 1 && 43 <= length && length <= 1520 && self.is_udp()
    }

    // Whether it carries UDP.
    fn is_udp(self) -> bool
        ensures { result ≡ looks_udp self }
    {
        self.type_word % 256 == 0x08
            && self.type_word / 256 % 256 == 0x00
            && self.type_word / 0x1_0000 % 256 == 0x45
            && self.protocol_word / 0x100_0000 % 256 == 0x11
    }

    /// The packet's command.
    pub fn command(self) -> bool
        ensures { result ≡ command_seen self }
    {
        self.command_word / 0x1_0000 % 256 % 2 == 1
    }
}

/// How many words a packet of this status has.
pub fn word_count(status: u32) -> u16
    ensures { result ≡ word_count status }
{
    ((status / 0x1_0000 % 0x4000 + 3) / 4) as u16
}

/// How many packets wait, by the value of the register that tells it.
pub fn waiting(value: u32) -> u32
    ensures { result ≡ waiting value }
{
    value / 0x1_0000 % 256
}

/// The value with bit 23 set to the command.
pub fn with_command(value: u32, command: bool) -> u32
    ensures { result ≡ with_command value command }
{
    let bit = if command { 0x80_0000 } else { 0 };
    value / 0x100_0000 * 0x100_0000 + bit + value % 0x80_0000
}
