// Items at the address 8 of a code of 64 bytes.
use lb_exec::{DecodeItem, Outcome, execute, reads, writes};
use lb_rv::{Cause, Instr, decode};
use std::process::Abort;

// The item of a word, whose registers hold these values.
fn item(word: Option<u32>, left: u32, right: u32) -> DecodeItem {
    DecodeItem {
        pc: 8,
        word,
        predicted: 12,
        epoch: false,
        instruction: word.and_then(|w| decode(w)),
        left,
        right,
    }
}

// Asserts the outcome and the next address of an item.
fn expect(rt: &impl Abort, item: &DecodeItem, outcome: Outcome, next: u32) {
    let executed = execute(item, 64);
    assert_eq!(rt; executed.outcome, outcome);
    assert_eq!(rt; executed.next, next);
}

#[test]
fn halts_in_order(rt: HostRuntime) {
    let bad_pc = Outcome::Halt {
        cause: Cause::BadPc,
    };
    let mut none = item(None, 0, 0);
    expect(&rt, &none, bad_pc, 8);
    none.instruction = Some(Instr::Ecall);
    expect(&rt, &none, bad_pc, 8);
    let unknown = Outcome::Halt {
        cause: Cause::UnknownWord,
    };
    expect(&rt, &item(Some(0x04000033), 0, 0), unknown, 8);
}

#[test]
fn loads_and_stores(rt: HostRuntime) {
    // lw x2, 72(x1)
    let load = item(Some(0x0480A103), 0x10024000, 0);
    let outcome = Outcome::Load {
        instruction: Instr::Lw {
            rd: 2,
            rs1: 1,
            imm: 72,
        },
        address: 0x10024048,
        mmio: true,
        served: None,
    };
    expect(&rt, &load, outcome, 12);
    // sw x2, 72(x1)
    let sw = Instr::Sw {
        rs1: 1,
        rs2: 2,
        imm: 72,
    };
    let stored = Outcome::Store {
        instruction: sw,
        address: 80,
        value: 0x12345678,
        mmio: false,
        served: false,
    };
    expect(&rt, &item(Some(0x0420A423), 8, 0x12345678), stored, 12);
    let halt = Outcome::Halt {
        cause: Cause::StoreToCode,
    };
    expect(&rt, &item(Some(0x0420A423), 0xFFFFFFF0, 0), halt, 8);
    assert_eq!(rt; (reads(&sw), writes(&sw)), ((1, 2), 0));
}
