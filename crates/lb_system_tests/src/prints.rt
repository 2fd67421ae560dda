// What `print` writes.
use lb_testkit::call::{told_by_plain, whole};
use std::alloc::{AllocError, Global};
use std::test::Fail;

const PRINT: [&str; 2] = ["bulb", "print"];

// An input, and what is told of it: the status and what is written.
const ROWS: [(&str, &str); 8] = [
    (
        "fn init(){x=0x10;if(x<3){skip;}else{}}fn loop(){}",
        "0\nfn init() {\n  x = 16;\n  if (x < 3) {\n    skip;\n  }\n}\nfn loop() {\n}\n",
    ),
    ("", "0\n"),
    (" // nothing but this", "0\n"),
    // Rules aren't checked.
    (
        "fn f(a,a){f(1);x,x=g();stackalloc 6 as p{}MMIOREAD();}",
        "0\nfn f(a, a) {\n  f(1);\n  x, x = g();\n  stackalloc 6 as p {\n  }\n  MMIOREAD();\n}\n",
    ),
    (
        "fn f(a,b)->(c,d){unset a;store1(a,b);store2((a+001),0x0);store4(1,0xFf);while load1(p){z=load2(load4(p));}if 1{}else{if 2{skip;}else{}}x=MMIOREAD(1);MMIOWRITE(1,2);}",
        "0\nfn f(a, b) -> (c, d) {\n  unset a;\n  store1(a, b);\n  store2((a + 1), 0);\n  store4(1, 255);\n  while load1(p) {\n    z = load2(load4(p));\n  }\n  if 1 {\n  } else {\n    if 2 {\n      skip;\n    }\n  }\n  x = MMIOREAD(1);\n  MMIOWRITE(1, 2);\n}\n",
    ),
    (
        "fn f(){x=((((1+2)-3)*4)*^5);y=((((1/2)%3)&4)|5);z=((((1^2)>>3)<<4)>>.5);w=(((1<.2)<3)==4);}",
        "0\nfn f() {\n  x = ((((1 + 2) - 3) * 4) *^ 5);\n  y = ((((1 / 2) % 3) & 4) | 5);\n  z = ((((1 ^ 2) >> 3) << 4) >>. 5);\n  w = (((1 <. 2) < 3) == 4);\n}\n",
    ),
    ("fn init() {", "2\ntext at 11 ended\n"),
    ("fn init() { x = 1 + 2; }", "2\ntext at 18 unexpected\n"),
];

// What `print` tells of an input.
fn told(alloc: Global, input: &str) -> Result<String, AllocError> {
    told_by_plain(alloc, &whole(&PRINT, input.as_bytes()))
}

#[test]
fn prints_programs(rt: HostRuntime) -> Result<(), Fail> {
    for (input, want) in ROWS {
        let got = told(rt.alloc(), input)?;
        assert_eq!(rt; got.as_str(), want, "of {input}");
    }
    Ok(())
}

// A text that was printed is printed as it is.
#[test]
fn prints_what_was_printed(rt: HostRuntime) -> Result<(), Fail> {
    for (_, want) in ROWS {
        if let Some(text) = want.strip_prefix("0\n") {
            let got = told(rt.alloc(), text)?;
            assert_eq!(rt; got.as_str(), want);
        }
    }
    Ok(())
}
