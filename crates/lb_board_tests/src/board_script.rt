// Lines of a script for the board.
use crate::stop::Stop;
use lb_board::Board;
use lb_board_testkit::script;
use lb_trace::Kind;
use lb_trace_testkit::kinds::KINDS;
use std::alloc::Global;

const TXDATA: u32 = 0x1002_4048;

const RXDATA: u32 = 0x1002_404C;

/// A board at boot, with frames of the bytes that the texts tell; one of five bytes is faulty.
pub fn board(alloc: Global, texts: &str) -> Result<Board, Stop> {
    Ok(Board::boot(alloc, script(alloc, texts)?)?)
}

/// Does what the line says, and answers what is told of it.
pub fn answer(alloc: Global, board: &mut Board, line: &str) -> Result<String, Stop> {
    let (word, rest) = line.split_once(' ').unwrap_or((line, ""));
    match word {
        "new" => {
            *board = crate::board_script::board(alloc, rest)?;
            allowed(alloc, board)
        }
        "boot" => act(alloc, board, Kind::Boot),
        "shift" => act(alloc, board, Kind::Shift),
        "arrive" => act(alloc, board, Kind::Arrive),
        "allowed" => allowed(alloc, board),
        "read" => {
            let value = read(board, number(rest)?)?;
            Ok(format!(in alloc; "{value:08x}")?)
        }
        "write" => write(alloc, board, rest),
        "send" => exchange(alloc, board, rest),
        "lamp" => {
            let word = if board.lamp() { "on" } else { "off" };
            Ok(String::from_str(alloc, word)?)
        }
        "frames" => frames(alloc, board),
        _ => Err(Stop::Line),
    }
}

// The number in hexadecimal.
fn number(text: &str) -> Result<u32, Stop> {
    u32::from_str_radix(text, 16).map_err(|_| Stop::Line)
}

// The action is done where it is allowed.
fn act(alloc: Global, board: &mut Board, kind: Kind) -> Result<String, Stop> {
    let word = if board.enabled(kind) {
        board.act(kind);
        "done"
    } else {
        "no"
    };
    Ok(String::from_str(alloc, word)?)
}

// The letters of the actions that are allowed.
fn allowed(alloc: Global, board: &Board) -> Result<String, Stop> {
    let mut letters = String::new(alloc);
    for (letter, kind) in KINDS {
        if board.enabled(kind) {
            letters.push(letter)?;
        }
    }
    Ok(letters)
}

// The value at the address, which was foretold.
fn read(board: &mut Board, addr: u32) -> Result<u32, Stop> {
    let told = board.peek(addr);
    let value = board.read(addr);
    if told == value {
        Ok(value)
    } else {
        Err(Stop::Foretold)
    }
}

// Writes the value at the address, and tells nothing.
fn write(alloc: Global, board: &mut Board, rest: &str) -> Result<String, Stop> {
    let (addr, value) = rest.split_once(' ').ok_or(Stop::Line)?;
    board.write(number(addr)?, number(value)?);
    Ok(String::new(alloc))
}

// What comes back for the bytes that go out in the mode that the bus is in.
fn exchange(alloc: Global, board: &mut Board, text: &str) -> Result<String, Stop> {
    let bytes = hex::decode(alloc, text)?;
    let mut answers = Vec::new(alloc);
    for byte in bytes.iter() {
        let answer = exchange_byte(board, *byte)?;
        answers.push(answer)?;
    }
    Ok(hex::encode(alloc, answers.as_slice())?)
}

// What comes back for the byte, which was foretold.
fn exchange_byte(board: &mut Board, byte: u8) -> Result<u8, Stop> {
    board.write(TXDATA, u32::from(byte));
    if !board.enabled(Kind::Shift) {
        return Err(Stop::Line);
    }
    let told = board.answer();
    board.act(Kind::Shift);
    if read(board, RXDATA)? == u32::from(told) {
        Ok(told)
    } else {
        Err(Stop::Foretold)
    }
}

// How many frames have arrived, and the length of each, with a sign where it is faulty.
fn frames(alloc: Global, board: &Board) -> Result<String, Stop> {
    let arrived = board.arrived();
    let mut text = format!(in alloc; "{arrived}")?;
    for frame in board.frames().iter() {
        let length = frame.bytes().len();
        let sign = if frame.error() { "!" } else { "" };
        let part = format!(in alloc; " {length}{sign}")?;
        text.push_str(part.as_str())?;
    }
    Ok(text)
}
