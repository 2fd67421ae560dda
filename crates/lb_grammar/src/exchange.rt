// The exchange of a byte over the serial bus.
ghost use Rattle.std.specs.Prelude.{◌≡◌};
ghost use Rattle.lb_grammar.specs.InternalExchanging.{exchange_step};

use crate::progress::Progress;
use lb_trace::Event;

const TXDATA: u32 = 0x1002_4048;

const RXDATA: u32 = 0x1002_404C;

/// How many tries of a wait may be in vain before the last one.
pub const TRIES: u16 = 999;

/// Where an exchange stands. After a load in vain `left` more may be.
#[derive(Clone, Copy)]
pub enum Exchange {
    /// It waits for room.
    Room { left: u16 },
    /// There is room, and the byte comes next.
    Sending,
    /// It waits for the answer.
    Answer { left: u16 },
}

impl Exchange {
    /// Reads an event of the exchange of `byte`, which ends with its answer, or with `None` where it is given up.
    pub fn after(self, byte: u8, event: Event) -> Progress<Exchange, Option<u8>>
        ensures { result ≡ exchange_step byte self event }
    {
        match (self, event) {
            (Exchange::Room { left }, Event::Ld { addr, value }) if addr == TXDATA => {
                if value < 0x8000_0000 {
                    Progress::Within(Exchange::Sending)
                } else if left == 0 {
                    Progress::Done(None)
                } else {
                    Progress::Within(Exchange::Room { left: left - 1 })
                }
            }
            (Exchange::Sending, Event::St { addr, value })
                if addr == TXDATA && value == u32::from(byte) => {
                Progress::Within(Exchange::Answer { left: TRIES })
            }
            (Exchange::Answer { left }, Event::Ld { addr, value }) if addr == RXDATA => {
                if value < 0x8000_0000 {
                    Progress::Done(Some((value % 256) as u8))
                } else if left == 0 {
                    Progress::Done(None)
                } else {
                    Progress::Within(Exchange::Answer { left: left - 1 })
                }
            }
            _ => Progress::Off,
        }
    }
}
