// Packets that count and packets that don't.
use crate::rows::expect_lines;
use lb_grammar::command_of_packet;
use lb_trace_testkit::lamp::packet_bytes;
use std::test::Fail;

#[test]
fn lengths_and_bytes(rt: HostRuntime) -> Result<(), Fail> {
    // at the limits of the length; with each byte that is looked at wrong in one bit, and others changed
    expect_lines(
        &rt,
        rt.alloc(),
        "N1 B G2a
B G2a M K1
N1 B G2b K1
B G2b M E
N1 B G5f0 K1
B G5f0 M R7c:0
N1 B G5f1
B G5f1 M K1
B G5f1 S10024018:2 M S10024018:0
N1 B G3fff
B G3fff M K1
B G2b:c:9 M K1
B G2b:d:1 M K1
B G2b:e:44 M K1
B G2b:e:46 M K1
B G2b:17:10 M K1
B G2b:17:91 M K1
B H2b M K1
N1 B G2b:b:ff K1
N1 B G2b:f:ff K1
N1 B G2b:16:11 K1
N1 B G2b:18:ff K1
N1 B G2b:29:ff K1
N1 B G3c:2a:fe K0
N1 B G3c:2a:ff K1
N1 B G3c:2b:1 K1
B G2b:2a:0 L1001200c:12345678 M S1001200c:12b45678
B G2b L1001200c:ffffffff M S1001200c:ff7fffff
N1 B G2b L1001200c:800000 S1001200c:800000
B G2b L1001200c:0 M S1001200c:800001
B G2b M L10012008:0
B G2b L1001200c:0 M L1001200c:0",
    )?;
    Ok(())
}

#[test]
fn commands(rt: HostRuntime) -> Result<(), Fail> {
    for (text, want) in [
        ("G2a", None),
        ("G2b", Some(true)),
        ("G2b:2a:fe", Some(false)),
        ("G5f0", Some(true)),
        ("G5f1", None),
        ("G3c:c:9", None),
        ("G3c:d:1", None),
        ("G3c:e:46", None),
        ("G3c:17:6", None),
        ("G3c:b:ff", Some(true)),
        ("G0", None),
    ] {
        let bytes = packet_bytes(rt.alloc(), text)?;
        assert_eq!(&rt; command_of_packet(false, &bytes), want, "of {text}");
        assert_eq!(&rt; command_of_packet(true, &bytes), None, "of {text}");
    }
    Ok(())
}
