// A good trace of three rounds: its prefixes, and what becomes of it when an event is changed.
use crate::plain::plain_judge;
use crate::rows::{script, verdict};
use lb_grammar::{Verdict, judge};
use lb_trace::Event;
use std::test::Fail;

// The event with one bit changed: the first 32 are the address's, the next 32 the value's, the last one is its kind.
fn changed(event: Event, bit: u32) -> Event {
    match (event, bit) {
        (Event::Ld { addr, value }, 0..32) => Event::Ld {
            addr: addr ^ 1 << bit,
            value,
        },
        (Event::St { addr, value }, 0..32) => Event::St {
            addr: addr ^ 1 << bit,
            value,
        },
        (Event::Ld { addr, value }, 32..64) => Event::Ld {
            addr,
            value: value ^ 1 << (bit - 32),
        },
        (Event::St { addr, value }, 32..64) => Event::St {
            addr,
            value: value ^ 1 << (bit - 32),
        },
        (Event::Ld { addr, value }, _) => Event::St { addr, value },
        (Event::St { addr, value }, _) => Event::Ld { addr, value },
    }
}

#[test]
fn prefixes_and_changes(rt: HostRuntime) -> Result<(), Fail> {
    let mut events = Vec::new(rt.alloc());
    let good = script(rt.alloc(), "N3 Y1 B Y0 E G2b K1 H5")?;
    for event in &good.events {
        assert!(&rt; matches!(judge(&events), Verdict::Prefix { .. }));
        assert_eq!(&rt; judge(&events), plain_judge(&events));
        events.push(*event)?;
    }
    assert_eq!(&rt; judge(&events), verdict(&good));
    assert_eq!(&rt; judge(&events), plain_judge(&events));
    let mut bit = 0u32;
    for (i, event) in good.events.iter().enumerate() {
        for _ in 0..8 {
            bit = bit.wrapping_add(8) % 65;
            set(&mut events, i, changed(*event, bit));
            let said = judge(&events);
            assert_eq!(&rt; said, plain_judge(&events), "event {i}, bit {bit}");
            if let Verdict::Leaves { at } = said {
                assert!(&rt; at >= i as u64);
            }
        }
        set(&mut events, i, *event);
    }
    Ok(())
}

// Puts an event at a place.
fn set(events: &mut Vec<Event>, place: usize, event: Event) {
    if let Some(at_place) = events.get_mut(place) {
        *at_place = event;
    }
}
