// The examples that the texts are told by.
use crate::answer::expect;
use std::test::Fail;

#[test]
fn answers_worked_examples(rt: HostRuntime) -> Result<(), Fail> {
    for (text, want) in [
        (
            "fn init() { x = 4294967296; } fn loop() { }",
            "text at 25 number-too-wide",
        ),
        ("fn init() {", "text at 11 ended"),
        (
            "fn init() { } fn loop() { }",
            "fn init() {\n}\nfn loop() {\n}\n",
        ),
        ("", ""),
        (
            "fn init(){x=0x10;if(x<3){skip;}else{}}fn loop(){}",
            "fn init() {\n  x = 16;\n  if (x < 3) {\n    skip;\n  }\n}\nfn loop() {\n}\n",
        ),
        ("fn", "text at 2 ended"),
        ("fn f() { x = (a", "text at 15 ended"),
        ("fn f() { x = (a +", "text at 17 ended"),
        ("@", "text at 0 unexpected"),
        ("fn f() { x = 1 }", "text at 15 unexpected"),
        ("fn f() { x = 12345678901; }", "text at 23 number-too-wide"),
        ("fn f() { while 1 { } } }", "text at 23 unexpected"),
    ] {
        expect(&rt, rt.alloc(), text.as_bytes(), want.as_bytes())?;
    }
    Ok(())
}
