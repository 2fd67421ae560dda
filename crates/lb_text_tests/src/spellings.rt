// Where tokens end, and what stands between them.
use crate::answer::{NoAnswer, expect};
use std::test::Fail;

#[test]
fn cuts_tokens(rt: HostRuntime) -> Result<(), Fail> {
    for (text, want) in [
        ("fn f(){x=if;}", "text at 11 unexpected"),
        ("fn f(){x=ifx;}", "fn f() {\n  x = ifx;\n}\n"),
        ("fn f(){x=(a > b);}", "text at 13 unexpected"),
        ("fn f(){x=(a >", "text at 13 ended"),
        ("fn f(){x=(a >>", "text at 14 ended"),
        ("fn f(){x=(a >>> b);}", "text at 14 unexpected"),
        ("fn f(){x=(a >>. b);}", "fn f() {\n  x = (a >>. b);\n}\n"),
        ("fn f(){x=(a >>.. b);}", "text at 15 unexpected"),
        ("fn f() -", "text at 8 ended"),
        ("fn f() ->(x){}", "fn f() -> (x) {\n}\n"),
        ("fn f() - >(x){}", "text at 8 unexpected"),
        ("fn f(){x ==", "text at 10 unexpected"),
        ("fn f(){x = = 1;}", "text at 11 unexpected"),
        ("fn f(){x=(a = b);}", "text at 13 unexpected"),
        ("fn f(){x=(a== b);}", "fn f() {\n  x = (a == b);\n}\n"),
        ("fn f(){x=0x", "text at 11 ended"),
        ("fn f(){x=0x;}", "text at 11 unexpected"),
        ("fn f(){x=0xg;}", "text at 11 unexpected"),
        ("fn f(){x=12a;}", "text at 11 unexpected"),
        ("fn f(){x=00x1;}", "text at 11 unexpected"),
        ("fn f(){x=0X1;}", "text at 10 unexpected"),
        ("fn f(){x=0x1x;}", "text at 12 unexpected"),
        ("fn if", "text at 5 ended"),
        ("fn if(", "text at 5 unexpected"),
        ("fnx", "text at 2 unexpected"),
        ("fn f(){x=(a * ^b);}", "text at 14 unexpected"),
        ("fn f(){x=(a <. b);}", "fn f() {\n  x = (a <. b);\n}\n"),
        ("fn f(){x=(a < .b);}", "text at 14 unexpected"),
        ("fn f(){x=(a <<. b);}", "text at 14 unexpected"),
        ("fn f(){x=(a ** b);}", "text at 13 unexpected"),
        ("fn 1f(){}", "text at 3 unexpected"),
        ("fn f(a,){}", "text at 7 unexpected"),
        ("fn f(){x=(a-- b);}", "text at 12 unexpected"),
    ] {
        expect(&rt, rt.alloc(), text.as_bytes(), want.as_bytes())?;
    }
    Ok(())
}

#[test]
fn passes_blanks_and_comments(rt: HostRuntime) -> Result<(), Fail> {
    for (text, want) in [
        ("fn f(){x=(a ///c\nb);}", "text at 17 unexpected"),
        ("fn f(){x=(a / //c\n b);}", "fn f() {\n  x = (a / b);\n}\n"),
        ("fn f(){x=(a //c\n/b);}", "fn f() {\n  x = (a / b);\n}\n"),
        ("fn init() / {", "text at 11 unexpected"),
        ("/", "text at 1 ended"),
        ("fn init() { } /x", "text at 15 unexpected"),
        ("fn f(){}/", "text at 9 ended"),
        ("fn f(){} // the end", "fn f() {\n}\n"),
        ("//\nfn f(){}//\n", "fn f() {\n}\n"),
        ("// only a comment", ""),
        (" \t\r\n", ""),
        ("fn//(\nf(){//}\n}", "fn f() {\n}\n"),
        ("fn f/**/(){}", "text at 5 unexpected"),
        ("fn/", "text at 3 ended"),
        ("f/n f(){}", "text at 1 unexpected"),
        ("fn f(){x=1/;}", "text at 11 unexpected"),
        ("fn f(){x=1//;}", "text at 14 ended"),
        ("\tfn\r\nf(){x=1;}\r", "fn f() {\n  x = 1;\n}\n"),
        (
            "fn f(){unset x;skip ;}",
            "fn f() {\n  unset x;\n  skip;\n}\n",
        ),
    ] {
        expect(&rt, rt.alloc(), text.as_bytes(), want.as_bytes())?;
    }
    Ok(())
}

#[test]
fn reads_numbers(rt: HostRuntime) -> Result<(), Fail> {
    for (text, want) in [
        ("fn f(){x=4294967295;}", "fn f() {\n  x = 4294967295;\n}\n"),
        ("fn f(){x=4294967296;}", "text at 18 number-too-wide"),
        ("fn f(){x=42949672950;}", "text at 19 number-too-wide"),
        (
            "fn f(){x=00000004294967295;}",
            "fn f() {\n  x = 4294967295;\n}\n",
        ),
        ("fn f(){x=0000;}", "fn f() {\n  x = 0;\n}\n"),
        ("fn f(){x=0xffffffff;}", "fn f() {\n  x = 4294967295;\n}\n"),
        ("fn f(){x=0xFFFFFFFF;}", "fn f() {\n  x = 4294967295;\n}\n"),
        ("fn f(){x=0x100000000;}", "text at 19 number-too-wide"),
        ("fn f(){x=0xffffffff0;}", "text at 19 number-too-wide"),
        ("fn f(){x=0xFFFFFFFFa;}", "text at 19 number-too-wide"),
        ("fn f(){x=429496729a;}", "text at 18 unexpected"),
        ("fn f(){x=4294967295a;}", "text at 19 unexpected"),
        ("fn f(){x=0xffffffffg;}", "text at 19 unexpected"),
        ("fn f(){x=0x000000000fF;}", "fn f() {\n  x = 255;\n}\n"),
        ("fn f(){x=4294967296", "text at 18 number-too-wide"),
        (
            "fn f(){x=9999999999999999999999;}",
            "text at 18 number-too-wide",
        ),
        (
            "fn f(){stackalloc 0x10 as x{}}",
            "fn f() {\n  stackalloc 16 as x {\n  }\n}\n",
        ),
        (
            "fn f(){stackalloc 4294967296 as x{}}",
            "text at 27 number-too-wide",
        ),
        ("fn f(){x=0x0AaZ;}", "text at 14 unexpected"),
        ("fn f(){x=1_0;}", "text at 10 unexpected"),
    ] {
        expect(&rt, rt.alloc(), text.as_bytes(), want.as_bytes())?;
    }
    Ok(())
}

#[test]
fn reads_names(rt: HostRuntime) -> Result<(), Fail> {
    for (text, want) in [
        (
            "fn abcdefghijklmnopqrstuvwxyz_ABCDE(){}",
            "fn abcdefghijklmnopqrstuvwxyz_ABCDE() {\n}\n",
        ),
        (
            "fn abcdefghijklmnopqrstuvwxyz_ABCDEF(){}",
            "text at 35 name-too-long",
        ),
        (
            "fn aaaaaaaaaaaaaaaaaaaaaaaaaaaaaaaaa",
            "text at 35 name-too-long",
        ),
        ("fn aaaaaaaaaaaaaaaaaaaaaaaaaaaaaaaa", "text at 35 ended"),
        (
            "fn f(){abcdefghijklmnopqrstuvwxyz_ABCDE=abcdefghijklmnopqrstuvwxyz_ABCDE;}",
            "fn f() {\n  abcdefghijklmnopqrstuvwxyz_ABCDE = abcdefghijklmnopqrstuvwxyz_ABCDE;\n}\n",
        ),
        (
            "fn f(){x=abcdefghijklmnopqrstuvwxyz_ABCDE9;}",
            "text at 41 name-too-long",
        ),
        (
            "fn f(abcdefghijklmnopqrstuvwxyz_ABCDE,abcdefghijklmnopqrstuvwxyz_ABCDE_){}",
            "text at 70 name-too-long",
        ),
        ("fn _(){}", "fn _() {\n}\n"),
        ("fn _1(_1){}", "fn _1(_1) {\n}\n"),
        ("fn f(){if_=iff;}", "fn f() {\n  if_ = iff;\n}\n"),
        (
            "fn loads1(){load3=load11;}",
            "fn loads1() {\n  load3 = load11;\n}\n",
        ),
        ("fn mmioread(){}", "fn mmioread() {\n}\n"),
        ("fn f(){x=MMIOREADS;}", "fn f() {\n  x = MMIOREADS;\n}\n"),
        (
            "fn f(){xxxxxxxxxxxxxxxxxxxxxxxxxxxxxxxx-",
            "text at 39 unexpected",
        ),
        (
            "fn abcdefghijklmnopqrstuvwxyz_ABCD-",
            "text at 34 unexpected",
        ),
        (
            "fn f(){store1store1store1store1store1store1",
            "text at 39 name-too-long",
        ),
    ] {
        expect(&rt, rt.alloc(), text.as_bytes(), want.as_bytes())?;
    }
    Ok(())
}

#[test]
fn refuses_reserved_words(rt: HostRuntime) -> Result<(), Fail> {
    for (text, want) in [
        ("fn fn(){}", "text at 5 unexpected"),
        ("fn if(){}", "text at 5 unexpected"),
        ("fn else(){}", "text at 7 unexpected"),
        ("fn while(){}", "text at 8 unexpected"),
        ("fn skip(){}", "text at 7 unexpected"),
        ("fn unset(){}", "text at 8 unexpected"),
        ("fn stackalloc(){}", "text at 13 unexpected"),
        ("fn as(){}", "text at 5 unexpected"),
        ("fn load1(){}", "text at 8 unexpected"),
        ("fn load2(){}", "text at 8 unexpected"),
        ("fn load4(){}", "text at 8 unexpected"),
        ("fn store1(){}", "text at 9 unexpected"),
        ("fn store2(){}", "text at 9 unexpected"),
        ("fn store4(){}", "text at 9 unexpected"),
        ("fn MMIOREAD(){}", "text at 11 unexpected"),
        ("fn MMIOWRITE(){}", "text at 12 unexpected"),
    ] {
        expect(&rt, rt.alloc(), text.as_bytes(), want.as_bytes())?;
    }
    Ok(())
}

#[test]
fn reads_each_sign(rt: HostRuntime) -> Result<(), NoAnswer> {
    let alloc = rt.alloc();
    for sign in [
        "+", "-", "*", "*^", "/", "%", "&", "|", "^", ">>", "<<", ">>.", "<.", "<", "==",
    ] {
        let text = format!(in alloc; "fn f(){{x=(a{sign}b);}}")?;
        let want = format!(in alloc; "fn f() {{\n  x = (a {sign} b);\n}}\n")?;
        expect(&rt, alloc, text.as_bytes(), want.as_bytes())?;
    }
    Ok(())
}
