// Lines of a script for the network chip.
use crate::stop::Stop;
use lb_lan::Lan;
use lb_trace::Frame;
use std::alloc::Global;

/// Does what the line says, and answers what is told of it.
pub fn answer(alloc: Global, lan: &mut Lan, line: &str) -> Result<String, Stop> {
    let (word, rest) = line.split_once(' ').unwrap_or((line, ""));
    match word {
        "new" => {
            *lan = Lan::new(alloc)?;
            awake(alloc, lan)
        }
        "wake" => {
            lan.wake();
            awake(alloc, lan)
        }
        "send" => {
            let answers = send(alloc, lan, rest)?;
            lan.release();
            Ok(answers)
        }
        "begin" => send(alloc, lan, rest),
        "end" => {
            lan.release();
            Ok(String::new(alloc))
        }
        "frame" => receive(alloc, lan, &Frame::new(hex::decode(alloc, rest)?, false)),
        "faulty" => receive(alloc, lan, &Frame::new(hex::decode(alloc, rest)?, true)),
        "sevens" => receive(alloc, lan, &sevens(alloc, rest)?),
        _ => Err(Stop::Line),
    }
}

fn awake(alloc: Global, lan: &Lan) -> Result<String, Stop> {
    let word = if lan.is_awake() { "awake" } else { "asleep" };
    Ok(String::from_str(alloc, word)?)
}

// The answers to the bytes, each of which was foretold.
fn send(alloc: Global, lan: &mut Lan, text: &str) -> Result<String, Stop> {
    let bytes = hex::decode(alloc, text)?;
    let mut answers = Vec::new(alloc);
    for byte in bytes.iter() {
        let told = lan.answer(*byte);
        let answer = lan.exchange(*byte);
        if told != answer {
            return Err(Stop::Foretold);
        }
        answers.push(answer)?;
    }
    Ok(hex::encode(alloc, answers.as_slice())?)
}

// A frame of so many bytes of 7.
fn sevens(alloc: Global, length: &str) -> Result<Frame, Stop> {
    let length: usize = length.parse().map_err(|_| Stop::Line)?;
    let bytes = vec![in alloc; 7u8; length]?;
    Ok(Frame::new(bytes, false))
}

// The frame arrives where it may.
fn receive(alloc: Global, lan: &mut Lan, frame: &Frame) -> Result<String, Stop> {
    let word = if lan.accepts(frame) {
        lan.arrive(frame);
        "arrives"
    } else {
        "waits"
    };
    Ok(String::from_str(alloc, word)?)
}
