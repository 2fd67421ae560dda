// Each line of the scripts is told as it has to be.
use crate::board_rows::BOARD_ROWS;
use crate::chip_rows::CHIP_ROWS;
use crate::stop::Stop;
use crate::{board_script, chip_script};
use lb_lan::Lan;

#[test]
fn tells_of_the_chip(rt: HostRuntime) -> Result<(), Stop> {
    let mut lan = Lan::new(rt.alloc())?;
    for row in CHIP_ROWS.lines() {
        let (line, want) = row.split_once(" = ").ok_or(Stop::Line)?;
        let told = chip_script::answer(rt.alloc(), &mut lan, line)?;
        assert_eq!(rt; told.as_str(), want, "of {line}");
    }
    Ok(())
}

#[test]
fn tells_of_the_board(rt: HostRuntime) -> Result<(), Stop> {
    let mut board = board_script::board(rt.alloc(), "")?;
    for row in BOARD_ROWS.lines() {
        let (line, want) = row.split_once(" = ").ok_or(Stop::Line)?;
        let told = board_script::answer(rt.alloc(), &mut board, line)?;
        assert_eq!(rt; told.as_str(), want, "of {line}");
    }
    Ok(())
}
