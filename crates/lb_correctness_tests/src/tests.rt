// What the machine with the supplied image does, and the verdicts on its trace.
use crate::lamp::served;
use crate::stop::Stop;
use lb_grammar::Verdict;

#[test]
fn the_lamp_is_switched_on_once(rt: HostRuntime) -> Result<(), Stop> {
    let served = served(rt.alloc())?;
    assert!(rt; served.lit);
    assert!(rt; served.runs);
    assert_eq!(rt; served.arrived, 3);
    assert_eq!(rt; served.switches, 1);
    assert!(rt; matches!(served.verdict, Verdict::Prefix { rounds: 4.. }));
    assert_eq!(rt;
        served.of_other,
        Verdict::Leaves {
            at: served.place as u64
        }
    );
    Ok(())
}
