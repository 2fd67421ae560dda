// A plain judge: a reader that goes down the grammar, one function for each of its parts. It asks for a part's events
// one after another, keeps no state between them, and stops where they end or don't fit.
use lb_grammar::Verdict;
use lb_trace::Event;

// Why the reader stops.
#[derive(Clone, Copy)]
enum Stop {
    End,
    Wrong,
}

// How a part ends.
#[derive(Clone, Copy)]
enum Part {
    Whole,
    // After a wait in vain, and what ends the transaction.
    GivenUp,
}

// The events that are left.
#[derive(Drop)]
struct Reader<'a> {
    left: &'a [Event],
}

/// What is to be said of the trace.
pub fn plain_judge(trace: &[Event]) -> Verdict {
    let mut reader = Reader { left: trace };
    let mut rounds = 0u64;
    let stop = match reader.boot() {
        Ok(Part::Whole) => reader.rounds(&mut rounds),
        Ok(Part::GivenUp) => reader.end(),
        Err(stop) => stop,
    };
    match stop {
        Stop::End => Verdict::Prefix { rounds },
        Stop::Wrong => Verdict::Leaves {
            at: trace.len().saturating_sub(reader.left.len()) as u64,
        },
    }
}

impl Reader<'_> {
    // Nothing may follow.
    fn end(&self) -> Stop {
        if self.left.is_empty() {
            Stop::End
        } else {
            Stop::Wrong
        }
    }

    // Rounds, as long as they are whole. Each has an event at least.
    fn rounds(&mut self, rounds: &mut u64) -> Stop {
        for _ in 0..self.left.len() {
            match self.round() {
                Ok(Part::Whole) => *rounds = rounds.saturating_add(1),
                Ok(Part::GivenUp) => return self.end(),
                Err(stop) => return stop,
            }
        }
        self.end()
    }

    fn store(&mut self, addr: u32, value: u32) -> Result<(), Stop> {
        let (first, rest) = self.left.split_first().ok_or(Stop::End)?;
        if *first != (Event::St { addr, value }) {
            return Err(Stop::Wrong);
        }
        self.left = rest;
        Ok(())
    }

    fn load(&mut self, address: u32) -> Result<u32, Stop> {
        let (first, rest) = self.left.split_first().ok_or(Stop::End)?;
        match *first {
            Event::Ld { addr, value } if addr == address => {
                self.left = rest;
                Ok(value)
            }
            _ => Err(Stop::Wrong),
        }
    }

    // The value with bit 31 clear, if one of 1,000 loads has one.
    fn poll(&mut self, address: u32) -> Result<Option<u32>, Stop> {
        for _ in 0..1000 {
            let value = self.load(address)?;
            if value & 0x8000_0000 == 0 {
                return Ok(Some(value));
            }
        }
        Ok(None)
    }

    // The answer to a byte.
    fn exchange(&mut self, byte: u8) -> Result<Option<u8>, Stop> {
        if self.poll(0x1002_4048)?.is_none() {
            return Ok(None);
        }
        self.store(0x1002_4048, u32::from(byte))?;
        let answer = self.poll(0x1002_404C)?;
        Ok(answer.map(|value| value.to_le_bytes()[0]))
    }

    // The last four answers of a transaction.
    fn transaction(&mut self, bytes: &[u8]) -> Result<Option<[u8; 4]>, Stop> {
        self.store(0x1002_4018, 2)?;
        let answers = self.exchanges(bytes)?;
        self.store(0x1002_4018, 0)?;
        Ok(answers)
    }

    fn exchanges(&mut self, bytes: &[u8]) -> Result<Option<[u8; 4]>, Stop> {
        let mut answers = [0; 4];
        for byte in bytes {
            match self.exchange(*byte)? {
                Some(answer) => answers = [answers[1], answers[2], answers[3], answer],
                None => return Ok(None),
            }
        }
        Ok(Some(answers))
    }

    fn read(&mut self, address: u8) -> Result<Option<[u8; 4]>, Stop> {
        self.transaction(&[0x0B, 0, address, 0, 0, 0, 0, 0])
    }

    fn boot(&mut self) -> Result<Part, Stop> {
        self.store(0x1001_2038, 0x3C)?;
        self.store(0x1001_2008, 0x80_0000)?;
        if !self.read_until(0x64, 0xFFFF_FFFF, 0x8765_4321)? {
            return Ok(Part::GivenUp);
        }
        for bytes in [
            [0x02, 0, 0x74, 0x00, 0x00, 0x10, 0x00],
            [0x02, 0, 0xA8, 0x0C, 0x00, 0x00, 0x00],
            [0x02, 0, 0xA4, 0x01, 0x00, 0x00, 0x80],
        ] {
            if self.transaction(&bytes)?.is_none() {
                return Ok(Part::GivenUp);
            }
        }
        if !self.read_until(0xA4, 0x8000_0000, 0)? {
            return Ok(Part::GivenUp);
        }
        Ok(Part::Whole)
    }

    // Whether one of 1,000 whole reads has a word whose bits under the mask are these.
    fn read_until(&mut self, address: u8, mask: u32, bits: u32) -> Result<bool, Stop> {
        for _ in 0..1000 {
            match self.read(address)? {
                Some(word) if u32::from_le_bytes(word) & mask == bits => return Ok(true),
                Some(_) => {}
                None => return Ok(false),
            }
        }
        Ok(false)
    }

    fn round(&mut self) -> Result<Part, Stop> {
        let Some(info) = self.read(0x7C)? else {
            return Ok(Part::GivenUp);
        };
        if info[2] == 0 {
            return Ok(Part::Whole);
        }
        let Some(status) = self.read(0x40)? else {
            return Ok(Part::GivenUp);
        };
        let error = status[1] & 0x80 != 0;
        let length = u16::from_le_bytes([status[2], status[3] & 0x3F]);
        self.packet(error, length)
    }

    fn packet(&mut self, error: bool, length: u16) -> Result<Part, Stop> {
        // the bytes that are looked at
        let mut bytes = [0; 44];
        for k in 0..length.div_ceil(4) {
            let Some(word) = self.read(0x00)? else {
                return Ok(Part::GivenUp);
            };
            if k < 11 {
                let start = usize::from(k) * 4;
                bytes[start..start + 4].copy_from_slice(&word);
            }
        }
        let udp = bytes[12..15] == [0x08, 0x00, 0x45] && bytes[23] == 0x11;
        if error || !(43..=1520).contains(&length) || !udp {
            return Ok(Part::Whole);
        }
        let value = self.load(0x1001_200C)?;
        let switched = if bytes[42] & 1 == 1 {
            value | 0x80_0000
        } else {
            value & 0xFF7F_FFFF
        };
        self.store(0x1001_200C, switched)?;
        Ok(Part::Whole)
    }
}
