// A program that runs, and what it does outside the recursion over its commands.
ghost use Rattle.std.specs.Prelude.{◌≡◌, map, IfOk, OnOk};
ghost use Rattle.lb_syntax.specs.Tree.{term_of, Variable};
ghost use Rattle.lb_source.specs.Run.{address_fault, value_in, values_in};
ghost use Rattle.lb_source.specs.Source.{start};
ghost use Rattle.lb_source.specs.InternalMachine.{FollowsAccess, FollowsInteract, FollowsRead, FollowsReturn, FollowsSet, FollowsStore, FollowsStoreValue, FollowsUnset, FollowsWrite, PutsAll, state_of};

use crate::ends::{Reason, SourceEnd};
use crate::memory::Bytes;
use crate::value::{value_of, values_of};
use crate::variables::{Entry, assign, find, unset};
use lb_memory::{STACK_TOP, is_device_address};
use lb_syntax::{Action, Expr, Name, Width};
use lb_trace::Event;
use sqlite_items::Items;
use std::alloc::{AllocError, Global};

/// A program that runs.
#[derive(Drop)]
pub struct Machine {
    pub variables: Vec<Entry>,
    pub bytes: Bytes,
    /// The stack pointer.
    pub stack: u32,
    pub replies: Vec<u32>,
    /// How many of the replies are used up.
    pub next: usize,
    pub trace: Vec<Event>,
    pub fuel: u64,
}

/// Whether a run goes on.
#[derive(Clone, Copy, Debug, PartialEq, Eq)]
pub enum Flow {
    On,
    End(SourceEnd),
}

/// A run that ends, undefined for this reason.
pub fn undefined(reason: Reason) -> Flow
    ensures { result ≡ Flow.End (SourceEnd.Undefined reason) }
{
    Flow::End(SourceEnd::Undefined(reason))
}

/// A program before it runs.
pub fn start(alloc: Global, fuel: u64, replies: &[u32]) -> Result<Machine, AllocError>
    ensures { IfOk result (λ m. state_of m ≡ start fuel replies.now) }
{
    Ok(Machine {
        variables: Vec::new(alloc),
        bytes: Bytes::new(alloc)?,
        stack: STACK_TOP,
        replies: Vec::from_slice(alloc, replies)?,
        next: 0,
        trace: Vec::new(alloc),
        fuel,
    })
}

/// The value of an expression.
pub fn value(m: &Machine, e: &Expr) -> Result<u32, Reason>
    ensures { result ≡ value_in (state_of m.now) (term_of e.now) }
{
    value_of(&m.variables, &m.bytes, e)
}

/// The values of several expressions, from left to right.
pub fn values(
    m: &Machine,
    alloc: Global,
    es: &[Expr],
) -> Result<Result<Items<u32>, Reason>, AllocError>
    ensures { IfOk result (λ vs. vs ≡ values_in (state_of m.now) (map term_of es.now)) }
{
    values_of(alloc, &m.variables, &m.bytes, es)
}

/// Sets a variable to the value of an expression.
pub fn set_to(m: &mut Machine, alloc: Global, target: &Name, e: &Expr) -> Result<Flow, AllocError>
    ensures follows { IfOk result (λ flow. FollowsSet target.now (term_of e.now)
        m.old flow m.new) }
    ensures fuel { m.new.fuel ≡ m.old.fuel }
    ensures stack { m.new.stack ≡ m.old.stack }
{
    match value(m, e) {
        Err(reason) => Ok(undefined(reason)),
        Ok(v) => {
            assign(alloc, &mut m.variables, target, v)?;
            Ok(Flow::On)
        }
    }
}

/// Removes a variable, which may be unset already.
pub fn remove(m: &mut Machine, target: &Name) -> Flow
    ensures follows { FollowsUnset target.now m.old result m.new }
    ensures fuel { m.new.fuel ≡ m.old.fuel }
    ensures stack { m.new.stack ≡ m.old.stack }
{
    unset(&mut m.variables, target);
    Flow::On
}

/// Writes the low bytes of a value.
pub fn store(m: &mut Machine, width: Width, address: &Expr, e: &Expr) -> Flow
    ensures follows { FollowsStore width (term_of address.now) (term_of e.now) m.old result m.new }
    ensures fuel { m.new.fuel ≡ m.old.fuel }
    ensures stack { m.new.stack ≡ m.old.stack }
{
    match value(m, address) {
        Err(reason) => undefined(reason),
        Ok(address) => match value(m, e) {
            Err(reason) => undefined(reason),
            Ok(v) => store_value(m, width, address, v),
        },
    }
}

fn store_value(m: &mut Machine, width: Width, address: u32, v: u32) -> Flow
    ensures follows { FollowsStoreValue width address v m.old result m.new }
    ensures fuel { m.new.fuel ≡ m.old.fuel }
    ensures stack { m.new.stack ≡ m.old.stack }
{
    match m.bytes.store(width, address, v) {
        Err(reason) => undefined(reason),
        Ok(()) => Flow::On,
    }
}

/// Why the address of an access of a device is refused.
fn address_fault(address: u32) -> Option<Reason>
    ensures { result ≡ address_fault address }
{
    if address % 4 != 0 {
        Some(Reason::Unaligned)
    } else if is_device_address(address) {
        None
    } else {
        Some(Reason::OutOfRange)
    }
}

/// An access of a device.
pub fn interact(
    m: &mut Machine,
    alloc: Global,
    targets: &[Name],
    action: Action,
    arguments: &[Expr],
) -> Result<Flow, AllocError>
    ensures follows { IfOk result (λ flow. FollowsInteract action targets.now
        (map term_of arguments.now) m.old flow m.new) }
    ensures fuel { m.new.fuel ≡ m.old.fuel }
    ensures stack { m.new.stack ≡ m.old.stack }
{
    match values(m, alloc, arguments)? {
        Err(reason) => Ok(undefined(reason)),
        Ok(vs) => access(m, alloc, targets, action, vs.as_slice()),
    }
}

fn access(
    m: &mut Machine,
    alloc: Global,
    targets: &[Name],
    action: Action,
    vs: &[u32],
) -> Result<Flow, AllocError>
    ensures follows { IfOk result (λ flow. FollowsAccess action targets.now vs.now
        m.old flow m.new) }
    ensures fuel { m.new.fuel ≡ m.old.fuel }
    ensures stack { m.new.stack ≡ m.old.stack }
{
    match action {
        Action::Read => match targets {
            [target] => match vs {
                [address] => read(m, alloc, target, *address),
                _ => Ok(Flow::On),
            },
            _ => Ok(Flow::On),
        },
        Action::Write => match targets {
            [] => match vs {
                [address, v] => write(m, *address, *v),
                _ => Ok(Flow::On),
            },
            _ => Ok(Flow::On),
        },
    }
}

fn read(m: &mut Machine, alloc: Global, target: &Name, address: u32) -> Result<Flow, AllocError>
    ensures follows { IfOk result (λ flow. FollowsRead target.now address m.old flow m.new) }
    ensures fuel { m.new.fuel ≡ m.old.fuel }
    ensures stack { m.new.stack ≡ m.old.stack }
{
    if let Some(reason) = address_fault(address) {
        return Ok(undefined(reason));
    }
    let Some(reply) = m.replies.get(m.next) else {
        return Ok(Flow::End(SourceEnd::Starved));
    };
    let value = *reply;
    m.trace.push(Event::Ld {
        addr: address,
        value,
    })?;
    m.next += 1;
    assign(alloc, &mut m.variables, target, value)?;
    Ok(Flow::On)
}

fn write(m: &mut Machine, address: u32, value: u32) -> Result<Flow, AllocError>
    ensures follows { IfOk result (λ flow. FollowsWrite address value m.old flow m.new) }
    ensures fuel { m.new.fuel ≡ m.old.fuel }
    ensures stack { m.new.stack ≡ m.old.stack }
{
    if let Some(reason) = address_fault(address) {
        return Ok(undefined(reason));
    }
    m.trace.push(Event::St {
        addr: address,
        value,
    })?;
    Ok(Flow::On)
}

/// Sets variables in turn, as far as there are values.
pub fn assign_all(
    alloc: Global,
    entries: &mut Vec<Entry>,
    names: &[Name],
    vs: &[u32],
) -> Result<(), AllocError>
    ensures { OnOk result (PutsAll names.now vs.now entries.old.items entries.new.items) }
{
    for (i, name) in names.iter().enumerate() {
        let Some(v) = vs.get(i) else {
            return Ok(());
        };
        assign(alloc, entries, name, *v)?;
    }
    Ok(())
}

/// The values of a function's results.
fn result_values(
    m: &Machine,
    alloc: Global,
    results: &[Name],
) -> Result<Result<Items<u32>, Reason>, AllocError>
    ensures { IfOk result (λ vs. vs ≡ values_in (state_of m.now) (map Variable results.now)) }
{
    let mut vs = Items::new(alloc);
    for name in results {
        match find(&m.variables, name) {
            Some(v) => vs.push(v)?,
            None => return Ok(Err(Reason::UnsetVariable)),
        }
    }
    Ok(Ok(vs))
}

/// Returns to the caller, whose variables these are: reads the results and sets the targets.
pub fn return_to(
    m: &mut Machine,
    alloc: Global,
    results: &[Name],
    targets: &[Name],
    caller: Vec<Entry>,
) -> Result<Flow, AllocError>
    ensures follows { IfOk result (λ flow. FollowsReturn results.now targets.now caller.items
        m.old flow m.new) }
    ensures fuel { m.new.fuel ≡ m.old.fuel }
    ensures stack { m.new.stack ≡ m.old.stack }
{
    match result_values(m, alloc, results)? {
        Err(reason) => Ok(undefined(reason)),
        Ok(vs) => {
            m.variables = caller;
            assign_all(alloc, &mut m.variables, targets, vs.as_slice())?;
            Ok(Flow::On)
        }
    }
}
