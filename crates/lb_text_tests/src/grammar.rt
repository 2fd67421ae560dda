// Each form of the grammar, and what stands where another form has to.
use crate::answer::expect;
use std::test::Fail;

#[test]
fn reads_functions_and_calls(rt: HostRuntime) -> Result<(), Fail> {
    for (text, want) in [
        ("fn f(a)->(b){}", "fn f(a) -> (b) {\n}\n"),
        ("fn f(a,b)->(c,d){}", "fn f(a, b) -> (c, d) {\n}\n"),
        ("fn f()->(){}", "text at 9 unexpected"),
        ("fn f(a b){}", "text at 7 unexpected"),
        ("fn f(){f();}", "fn f() {\n  f();\n}\n"),
        (
            "fn f(){f(1,x,(a+b));}",
            "fn f() {\n  f(1, x, (a + b));\n}\n",
        ),
        ("fn f(){f(1,);}", "text at 11 unexpected"),
        ("fn f(){x,y=f();}", "fn f() {\n  x, y = f();\n}\n"),
        ("fn f(){x,y=1;}", "text at 11 unexpected"),
        ("fn f(){x,y;}", "text at 10 unexpected"),
        ("fn f(){x=f(1);}", "fn f() {\n  x = f(1);\n}\n"),
        ("fn f(){x=f;}", "fn f() {\n  x = f;\n}\n"),
        ("fn f(){x=load1(y);}", "fn f() {\n  x = load1(y);\n}\n"),
        ("fn f(){load1(y);}", "text at 12 unexpected"),
        (
            "fn f(){x=MMIOREAD(1);}",
            "fn f() {\n  x = MMIOREAD(1);\n}\n",
        ),
        (
            "fn f(){MMIOWRITE(1,2);}",
            "fn f() {\n  MMIOWRITE(1, 2);\n}\n",
        ),
        (
            "fn f(){x,y=MMIOWRITE();}",
            "fn f() {\n  x, y = MMIOWRITE();\n}\n",
        ),
        ("fn f(){x=(MMIOREAD(1)+1);}", "text at 18 unexpected"),
    ] {
        expect(&rt, rt.alloc(), text.as_bytes(), want.as_bytes())?;
    }
    Ok(())
}

#[test]
fn reads_commands(rt: HostRuntime) -> Result<(), Fail> {
    for (text, want) in [
        ("fn f(){x=1+2;}", "text at 10 unexpected"),
        ("fn f(){x=(1);}", "text at 11 unexpected"),
        ("fn f(){store2(a,b);store4(a);}", "text at 27 unexpected"),
        (
            "fn f(){store1(1,2);store2(a,(b-1));store4(0x10,load4(c));}",
            "fn f() {\n  store1(1, 2);\n  store2(a, (b - 1));\n  store4(16, load4(c));\n}\n",
        ),
        (
            "fn f(){stackalloc 8 as p{q=p;}}",
            "fn f() {\n  stackalloc 8 as p {\n    q = p;\n  }\n}\n",
        ),
        ("fn f(){stackalloc x as p{}}", "text at 18 unexpected"),
        (
            "fn f(){if a{}else{skip;}}",
            "fn f() {\n  if a {\n  } else {\n    skip;\n  }\n}\n",
        ),
        (
            "fn f(){if a{skip;}else{}b();}",
            "fn f() {\n  if a {\n    skip;\n  }\n  b();\n}\n",
        ),
        ("fn f(){if a{}else if b{}}", "text at 18 unexpected"),
        ("fn f(){else{}}", "text at 11 unexpected"),
        (
            "fn f(){while a{while(b<c){unset d;}}}",
            "fn f() {\n  while a {\n    while (b < c) {\n      unset d;\n    }\n  }\n}\n",
        ),
        ("fn f(){while{}}", "text at 12 unexpected"),
        ("fn f(){skip}", "text at 11 unexpected"),
        ("fn f(){;}", "text at 7 unexpected"),
        ("fn f(){unset 1;}", "text at 13 unexpected"),
        ("fn f()", "text at 6 ended"),
        ("fn f(){}}", "text at 8 unexpected"),
        ("f(){}", "text at 1 unexpected"),
        ("fn f(){fn g(){}}", "text at 9 unexpected"),
        (
            "fn f(){x=load2(load4(y));}",
            "fn f() {\n  x = load2(load4(y));\n}\n",
        ),
        (
            "fn f(){x=(load1(a)==(b%c));}",
            "fn f() {\n  x = (load1(a) == (b % c));\n}\n",
        ),
    ] {
        expect(&rt, rt.alloc(), text.as_bytes(), want.as_bytes())?;
    }
    Ok(())
}
