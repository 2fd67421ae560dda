// A front over a code of two words.
use lb_front::{FetchItem, Front};
use std::process::Abort;

static CODE: [u32; 2] = [0x00108093, 0x0000006F];

// Asserts which item is fetched now, and goes on.
fn expect(rt: &impl Abort, front: &mut Front, word: Option<u32>, predicted: u32, epoch: bool) {
    let pc = front.pc();
    let item = FetchItem {
        pc,
        word,
        predicted,
        epoch,
    };
    assert_eq!(rt; front.item(&CODE), item);
    assert_eq!(rt; front.epoch(), epoch);
    front.advance();
    assert_eq!(rt; front.pc(), predicted);
}

#[test]
fn predicts_targets(rt: HostRuntime) {
    let mut front = Front::boot(0);
    expect(&rt, &mut front, Some(0x00108093), 4, false);
    expect(&rt, &mut front, Some(0x0000006F), 8, false);
    expect(&rt, &mut front, None, 12, false);
    // the jump at 4 goes to itself; the address 68 has its place in the table
    front.redirect(4, 4);
    expect(&rt, &mut front, Some(0x0000006F), 4, true);
    front.redirect(8, 68);
    expect(&rt, &mut front, None, 72, false);
    front.redirect(68, 2);
    expect(&rt, &mut front, None, 6, true);
    front.redirect(12, 4);
    expect(&rt, &mut front, Some(0x0000006F), 8, false);
    front.redirect(12, 0xFFFFFFFC);
    expect(&rt, &mut front, None, 0, true);
}
