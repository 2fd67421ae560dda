// A round: a poll, and the packet that waits, and the switch of the lamp where the packet counts.
ghost use Rattle.std.specs.Prelude.{◌≡◌};
ghost use Rattle.lb_grammar.specs.declared.round.Rounding.TheVariants.{Storing};
ghost use Rattle.lb_grammar.specs.InternalRounding.{after_info, after_status, after_word, round_step, words_left};

use crate::packet::{Header, waiting, with_command, word_count};
use crate::progress::{Ending, Progress};
use crate::transfer::Transfer::{self, Opening};
use crate::transfer::read_bytes;
use lb_trace::Event;

const OUTPUT_VAL: u32 = 0x1001_200C;

const RX_DATA_FIFO: u8 = 0x00;

const RX_STATUS_FIFO: u8 = 0x40;

const RX_FIFO_INF: u8 = 0x7C;

/// Where a round stands.
#[derive(Clone, Copy)]
pub enum Rounding {
    /// The register is read that tells how many packets wait.
    Info {
        at: Transfer,
    },
    /// A packet's status is read.
    Status {
        at: Transfer,
    },
    /// A word of it is read, after which `left` more come.
    Words {
        status: u32,
        left: u16,
        header: Header,
        at: Transfer,
    },
    /// The pins are read, to be switched.
    Loading {
        command: bool,
    },
    /// This value is to be put out.
    Storing {
        value: u32,
    },
}

impl Rounding {
    /// Before a round.
    pub const START: Rounding = Rounding::Info { at: Opening };

    /// Reads an event of a round.
    pub fn after(self, event: Event) -> Progress<Rounding, Ending>
        ensures { result ≡ round_step self event }
    {
        match self {
            Rounding::Info { at } => match at.after(&read_bytes(RX_FIFO_INF), event) {
                Progress::Within(at) => Progress::Within(Rounding::Info { at }),
                Progress::Done(word) => after_info(word),
                Progress::Off => Progress::Off,
            },
            Rounding::Status { at } => match at.after(&read_bytes(RX_STATUS_FIFO), event) {
                Progress::Within(at) => Progress::Within(Rounding::Status { at }),
                Progress::Done(word) => after_status(word),
                Progress::Off => Progress::Off,
            },
            Rounding::Words {
                status,
                left,
                header,
                at,
            } => {
                match at.after(&read_bytes(RX_DATA_FIFO), event) {
                    Progress::Within(at) => Progress::Within(Rounding::Words {
                        status,
                        left,
                        header,
                        at,
                    }),
                    Progress::Done(word) => after_word(status, left, header, word),
                    Progress::Off => Progress::Off,
                }
            }
            Rounding::Loading { command } => match event {
                Event::Ld { addr, value } if addr == OUTPUT_VAL => {
                    let value = with_command(value, command);
                    Progress::Within(Rounding::Storing { value })
                }
                _ => Progress::Off,
            },
            Rounding::Storing { value } => stored(value, event),
        }
    }
}

// The store of this value at the pins.
fn stored(expected: u32, event: Event) -> Progress<Rounding, Ending>
    ensures { result ≡ round_step (Storing expected) event }
{
    match event {
        Event::St { addr, value } if addr == OUTPUT_VAL && value == expected => {
            Progress::Done(Ending::Whole)
        }
        _ => Progress::Off,
    }
}

// After the poll.
fn after_info(word: Option<u32>) -> Progress<Rounding, Ending>
    ensures { result ≡ after_info word }
{
    match word {
        Some(value) if waiting(value) == 0 => Progress::Done(Ending::Whole),
        Some(_) => Progress::Within(Rounding::Status { at: Opening }),
        None => Progress::Done(Ending::GivenUp),
    }
}

// After the read of a status.
fn after_status(word: Option<u32>) -> Progress<Rounding, Ending>
    ensures { result ≡ after_status word }
{
    match word {
        Some(status) => {
            let header = Header {
                count: 0,
                type_word: 0,
                protocol_word: 0,
                command_word: 0,
            };
            words_left(status, word_count(status), header)
        }
        None => Progress::Done(Ending::GivenUp),
    }
}

// After the read of a word.
fn after_word(
    status: u32,
    left: u16,
    header: Header,
    word: Option<u32>,
) -> Progress<Rounding, Ending>
    ensures { result ≡ after_word status left header word }
{
    match word {
        Some(word) => words_left(status, left, header.with_word(word)),
        None => Progress::Done(Ending::GivenUp),
    }
}

// Where so many words are left.
fn words_left(status: u32, left: u16, header: Header) -> Progress<Rounding, Ending>
    ensures { result ≡ words_left status left header }
{
    if left > 0 {
        Progress::Within(Rounding::Words {
            status,
            left: left - 1,
            header,
            at: Opening,
        })
    } else if header.is_valid(status) {
        Progress::Within(Rounding::Loading {
            command: header.command(),
        })
    } else {
        Progress::Done(Ending::Whole)
    }
}
