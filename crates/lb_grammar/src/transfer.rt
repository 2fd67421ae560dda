// A transaction of the serial bus: a read or a write of a register of the network chip. Its state is kept small, since it
// is copied with each event.
ghost use Rattle.std.specs.Prelude.{◌≡◌, ◌≤◌, length};
ghost use Rattle.lb_grammar.specs.Grammar.{read_bytes, write_bytes};
ghost use Rattle.lb_grammar.specs.InternalTransferring.{next_byte, transfer_step};

use crate::exchange::{Exchange, TRIES};
use crate::progress::Progress;
use lb_trace::Event;

const CSMODE: u32 = 0x1002_4018;

/// Where a transaction stands.
#[derive(Clone, Copy)]
pub enum Transfer {
    /// The chip isn't selected yet.
    Opening,
    /// The byte at `place` is exchanged; `word` is that of the last four answers.
    Sending { place: u8, word: u32, at: Exchange },
    /// What is left is the end, with the word of the last four answers, or with `None` after a wait in vain.
    Closing { result: Option<u32> },
}

impl Transfer {
    /// Reads an event of the transaction that sends these bytes. It ends with the last four answers as a word, the
    /// first of them its lowest byte, or with `None` where it is given up.
    pub fn after(self, bytes: &[u8], event: Event) -> Progress<Transfer, Option<u32>>
        requires few { length bytes.now ≤ 8 }
        ensures { result ≡ transfer_step bytes.now self event }
    {
        match (self, event) {
            (Transfer::Opening, Event::St { addr, value }) if addr == CSMODE && value == 2 => {
                Progress::Within(next_byte(bytes, 0, 0))
            }
            (Transfer::Sending { place, word, at }, event) if usize::from(place) < bytes.len() => {
                match at.after(bytes[usize::from(place)], event) {
                    Progress::Within(at) => Progress::Within(Transfer::Sending { place, word, at }),
                    Progress::Done(Some(answer)) => {
                        let word = word / 256 + u32::from(answer) * 0x100_0000;
                        Progress::Within(next_byte(bytes, place + 1, word))
                    }
                    Progress::Done(None) => Progress::Within(Transfer::Closing { result: None }),
                    Progress::Off => Progress::Off,
                }
            }
            (Transfer::Closing { result }, Event::St { addr, value })
                if addr == CSMODE && value == 0 => { Progress::Done(result) }
            _ => Progress::Off,
        }
    }
}

// The exchange of the byte at this place, or the end where all were sent.
fn next_byte(bytes: &[u8], place: u8, word: u32) -> Transfer
    ensures { result ≡ next_byte bytes.now place word }
{
    if usize::from(place) < bytes.len() {
        Transfer::Sending {
            place,
            word,
            at: Exchange::Room { left: TRIES },
        }
    } else {
        Transfer::Closing { result: Some(word) }
    }
}

/// What a read of the register at this address sends.
pub fn read_bytes(address: u8) -> [u8; 8]
    ensures { result ≡ read_bytes address }
{
    [0x0B, 0, address, 0, 0, 0, 0, 0]
}

/// What a write of `value` to the register at this address sends.
pub fn write_bytes(address: u8, value: u32) -> [u8; 7]
    ensures { result ≡ write_bytes address value }
{
    [
        0x02,
        0,
        address,
        (value % 256) as u8,
        (value / 256 % 256) as u8,
        (value / 0x1_0000 % 256) as u8,
        (value / 0x100_0000 % 256) as u8,
    ]
}
