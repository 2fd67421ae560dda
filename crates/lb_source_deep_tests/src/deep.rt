// The deepest programs. A command takes 8 words of code at least, an `if` or a `while` 14, and a function 80 besides, so of
// the 32,768 words that a program may ask for, n functions leave room for 4,094 - 10 n commands in one another. A near
// frame has room for 473 blocks of 4 bytes; the words of a function with a larger one count twice. So nine functions
// reach deepest with blocks, and one with ifs or whiles.
use crate::chain::{Chain, Nest};
use lb_handmade::NotChecked;
use lb_source::SourceEnd;
use lb_syntax::Name;
use lb_trace::Event;
use sqlite_items::Items;
use std::alloc::Global;
use std::test::Fail;

const REACHED: Event = Event::St {
    addr: 0x1001_200C,
    value: 1,
};

// `init`, so many further functions, and `loop`
fn names(alloc: Global, between: usize) -> Result<Items<Name>, NotChecked> {
    let mut names = Items::new(alloc);
    names.push(Name::new(alloc, b"init")?)?;
    for i in 0..between {
        let name = format!(in alloc; "f{i}")?;
        names.push(Name::new(alloc, name.as_bytes())?)?;
    }
    names.push(Name::new(alloc, b"loop")?)?;
    Ok(names)
}

// What a run does: how many accesses, how many of them aren't that of the innermost block, and how it ends.
#[derive(Clone, Copy, Debug, PartialEq, Eq)]
struct Done {
    accesses: usize,
    others: usize,
    end: SourceEnd,
}

// It comes to the innermost block so many times, and then spends the fuel.
const fn reaches(times: usize) -> Done {
    Done {
        accesses: times,
        others: 0,
        end: SourceEnd::Spent,
    }
}

// What the chain does with so much fuel.
fn done_with(alloc: Global, chain: &Chain, fuel: u64) -> Result<Done, NotChecked> {
    let run = chain.run(alloc, fuel)?;
    let trace = run.trace.as_slice();
    Ok(Done {
        accesses: trace.len(),
        others: trace.iter().filter(|event| **event != REACHED).count(),
        end: run.end,
    })
}

// Nine functions, of which eight fill their frames: 3,992 blocks in one another. The code is 32,764 words.
#[test]
fn fills_near_frames(rt: HostRuntime) -> Result<(), Fail> {
    let names = names(rt.alloc(), 7)?;
    let chain = Chain {
        names: names.as_slice(),
        nest: Nest::StackAlloc { bytes: 4 },
        each: 473,
        last: 208,
    };
    for (fuel, times) in [(8, 0), (9, 1), (11, 3)] {
        let done = done_with(rt.alloc(), &chain, fuel)?;
        assert_eq!(rt; done, reaches(times), "fuel {fuel}");
    }
    Ok(())
}

// As many functions as there may be: 1,275 blocks in one another, and 255 calls. The code is 32,764 words.
#[test]
fn nests_calls(rt: HostRuntime) -> Result<(), Fail> {
    let names = names(rt.alloc(), 254)?;
    let chain = Chain {
        names: names.as_slice(),
        nest: Nest::StackAlloc { bytes: 4 },
        each: 5,
        last: 0,
    };
    for (fuel, times) in [(255, 0), (256, 1), (258, 3)] {
        let done = done_with(rt.alloc(), &chain, fuel)?;
        assert_eq!(rt; done, reaches(times), "fuel {fuel}");
    }
    Ok(())
}

// Two frames of 32,768 bytes, which are all that the stack has.
#[test]
fn fills_the_stack(rt: HostRuntime) -> Result<(), Fail> {
    let names = names(rt.alloc(), 0)?;
    let chain = Chain {
        names: names.as_slice(),
        nest: Nest::StackAlloc { bytes: 32_624 },
        each: 1,
        last: 1,
    };
    for (fuel, times) in [(1, 0), (2, 1), (4, 3)] {
        let done = done_with(rt.alloc(), &chain, fuel)?;
        assert_eq!(rt; done, reaches(times), "fuel {fuel}");
    }
    Ok(())
}

// One function with 2,325 ifs or whiles in one another. The code is 16 + 88 + 80 + 2,325 * 14 + 28 = 32,762 words.
#[test]
fn nests_conditions(rt: HostRuntime) -> Result<(), Fail> {
    let names = names(rt.alloc(), 0)?;
    for (nest, fuel, times) in [
        (Nest::If, 1, 0),
        (Nest::If, 2, 1),
        (Nest::If, 4, 3),
        (Nest::While, 2_326, 0),
        (Nest::While, 2_327, 1),
        (Nest::While, 2_329, 3),
    ] {
        let chain = Chain {
            names: names.as_slice(),
            nest,
            each: 0,
            last: 2_325,
        };
        let done = done_with(rt.alloc(), &chain, fuel)?;
        assert_eq!(rt; done, reaches(times), "{nest:?}, fuel {fuel}");
    }
    Ok(())
}
