// The placed code of commands and blocks.
ghost use Rattle.std.specs.Prelude.{◌≡◌, ◌<◌, [], ◌∷◌, length, IfOk, OnOk};
ghost use Rattle.lb_flat.specs.Code.{Constant, Compute, Load, Store, Reserve, Nothing};
ghost use Rattle.lb_flat.specs.Flat.{flat_command, flat_block};
ghost use Rattle.lb_flat.specs.Placed.{placed_block};
ghost use Rattle.lb_flat.specs.Located.{place_of};
ghost use Rattle.lb_spill.specs.InternalSpill.{computed, copied, spill_plain, spill, emitted};
ghost use Rattle.lb_spill.specs.InternalSpill.{Writes, IsPlaced, NamesBelow};
ghost use Rattle.lb_spill.specs.InternalSpill.{IsPlainCode, IsCallCode};

use crate::slots::{add, get, place_of, places_of, put, target_register};
use lb_flat::{
    FIRST_SCRATCH_REGISTER, FlatBlock, FlatCmd, Place, PlacedBlock, PlacedCmd,
    SECOND_SCRATCH_REGISTER,
};
use lb_syntax::{Op, Width};
use sqlite_items::Items;
use std::alloc::{AllocError, Global};

// Adds a number for this place.
fn add_literal(code: &mut Items<PlacedCmd>, to: Place, value: u32) -> Result<(), AllocError>
    ensures { OnOk result (Writes code.old code.new (computed (Constant value) [] (to ∷ []))) }
{
    let target = target_register(to);
    add(code, PlacedCmd::Literal { target, value })?;
    put(code, to)
}

// Adds a copy: one command where one end is a register.
fn add_copy(code: &mut Items<PlacedCmd>, from: Place, to: Place) -> Result<(), AllocError>
    ensures { OnOk result (Writes code.old code.new (copied (from ∷ []) (to ∷ []))) }
{
    match (from, to) {
        (Place::Register(source), Place::Register(target)) => {
            add(code, PlacedCmd::Assign { target, source })
        }
        (Place::Slot(slot), Place::Register(register)) => {
            add(code, PlacedCmd::GetSlot { register, slot })
        }
        (Place::Register(register), Place::Slot(slot)) => {
            add(code, PlacedCmd::PutSlot { slot, register })
        }
        (Place::Slot(_), Place::Slot(_)) => {
            get(code, FIRST_SCRATCH_REGISTER, from)?;
            put(code, to)
        }
    }
}

// Adds an operation on the values of two places.
fn add_binary(
    code: &mut Items<PlacedCmd>,
    op: Op,
    to: Place,
    left: Place,
    right: Place,
) -> Result<(), AllocError>
    ensures { OnOk result
        (Writes code.old code.new (computed (Compute op) (left ∷ right ∷ []) (to ∷ []))) }
{
    let left = get(code, FIRST_SCRATCH_REGISTER, left)?;
    let right = get(code, SECOND_SCRATCH_REGISTER, right)?;
    let target = target_register(to);
    add(
        code,
        PlacedCmd::Binary {
            op,
            target,
            left,
            right,
        },
    )?;
    put(code, to)
}

// Adds a load from the address in a place.
fn add_load(
    code: &mut Items<PlacedCmd>,
    width: Width,
    to: Place,
    address: Place,
) -> Result<(), AllocError>
    ensures { OnOk result
        (Writes code.old code.new (computed (Load width) (address ∷ []) (to ∷ []))) }
{
    let address = get(code, FIRST_SCRATCH_REGISTER, address)?;
    let target = target_register(to);
    add(
        code,
        PlacedCmd::Load {
            width,
            target,
            address,
        },
    )?;
    put(code, to)
}

// Adds a store of the value of a place to the address in another.
fn add_store(
    code: &mut Items<PlacedCmd>,
    width: Width,
    address: Place,
    value: Place,
) -> Result<(), AllocError>
    ensures { OnOk result
        (Writes code.old code.new (spill_plain (Store width) (address ∷ value ∷ []) [])) }
{
    let address = get(code, FIRST_SCRATCH_REGISTER, address)?;
    let value = get(code, SECOND_SCRATCH_REGISTER, value)?;
    add(
        code,
        PlacedCmd::Store {
            width,
            address,
            value,
        },
    )
}

// The commands as a block.
fn closed(code: Items<PlacedCmd>) -> PlacedBlock
    ensures { placed_block result ≡ emitted code Nothing }
{
    PlacedBlock { commands: code }
}

// The placed form of a call or an access: its arguments and targets may be slots.
fn place_call(c: &FlatCmd, alloc: Global, places: &[Place]) -> Result<PlacedCmd, AllocError>
    requires call { IsCallCode (flat_command c.now) }
    requires names { NamesBelow (length places.now) (flat_command c.now) }
    ensures { IfOk result (λ made.
        IsPlaced made (spill (place_of places.now) (flat_command c.now))) }
{
    match c {
        FlatCmd::Call {
            targets,
            function,
            arguments,
        } => Ok(PlacedCmd::Call {
            targets: places_of(alloc, places, targets.as_slice())?,
            function: *function,
            arguments: places_of(alloc, places, arguments.as_slice())?,
        }),
        FlatCmd::Interact {
            targets,
            action,
            arguments,
        } => Ok(PlacedCmd::Interact {
            targets: places_of(alloc, places, targets.as_slice())?,
            action: *action,
            arguments: places_of(alloc, places, arguments.as_slice())?,
        }),
        _ => unreachable!(),
    }
}

// Adds the code of a command without blocks.
fn add_plain(
    c: &FlatCmd,
    alloc: Global,
    places: &[Place],
    code: &mut Items<PlacedCmd>,
) -> Result<(), AllocError>
    requires plain { IsPlainCode (flat_command c.now) }
    requires names { NamesBelow (length places.now) (flat_command c.now) }
    ensures { OnOk result
        (Writes code.old code.new (spill (place_of places.now) (flat_command c.now))) }
{
    match c {
        FlatCmd::Literal { target, value } => add_literal(code, place_of(places, *target), *value),
        FlatCmd::Assign { target, source } => {
            add_copy(code, place_of(places, *source), place_of(places, *target))
        }
        FlatCmd::Binary {
            op,
            target,
            left,
            right,
        } => {
            let to = place_of(places, *target);
            let (left, right) = (place_of(places, *left), place_of(places, *right));
            add_binary(code, *op, to, left, right)
        }
        FlatCmd::Load {
            width,
            target,
            address,
        } => {
            let to = place_of(places, *target);
            add_load(code, *width, to, place_of(places, *address))
        }
        FlatCmd::Store {
            width,
            address,
            value,
        } => {
            let address = place_of(places, *address);
            add_store(code, *width, address, place_of(places, *value))
        }
        FlatCmd::Unset { .. } => Ok(()),
        _ => add(code, place_call(c, alloc, places)?),
    }
}

// Adds the code of a command, for these places of the function's variables.
#[cycle(code)]
fn add_command(
    c: &FlatCmd,
    alloc: Global,
    places: &[Place],
    code: &mut Items<PlacedCmd>,
) -> Result<(), AllocError>
    requires { NamesBelow (length places.now) (flat_command c.now) }
    ensures { OnOk result
        (Writes code.old code.new (spill (place_of places.now) (flat_command c.now))) }
{
    match c {
        FlatCmd::StackAlloc {
            bytes,
            target,
            body,
        } => {
            let reserved = place_stack_alloc(*bytes, *target, body, alloc, places)?;
            add(code, reserved)
        }
        FlatCmd::If { condition, yes, no } => {
            let condition = get(code, FIRST_SCRATCH_REGISTER, place_of(places, *condition))?;
            let yes = place_block(yes, alloc, places)?;
            let no = place_block(no, alloc, places)?;
            add(code, PlacedCmd::If { condition, yes, no })
        }
        FlatCmd::While {
            before,
            condition,
            body,
        } => {
            let mut head = Items::new(alloc);
            add_commands(before, alloc, places, &mut head)?;
            let from = place_of(places, *condition);
            let condition = get(&mut head, FIRST_SCRATCH_REGISTER, from)?;
            let before = closed(head);
            let body = place_block(body, alloc, places)?;
            add(
                code,
                PlacedCmd::While {
                    before,
                    condition,
                    body,
                },
            )
        }
        _ => add_plain(c, alloc, places, code),
    }
}

// The placed form of a stackalloc: where the address has a slot, the body first puts it there.
#[cycle(code)]
fn place_stack_alloc(
    bytes: u32,
    target: u32,
    body: &FlatBlock,
    alloc: Global,
    places: &[Place],
) -> Result<PlacedCmd, AllocError>
    requires target { target < length places.now }
    requires body { NamesBelow (length places.now) (flat_block body.now) }
    ensures { IfOk result (λ made. IsPlaced made
        (spill (place_of places.now) (Reserve bytes target (flat_block body.now)))) }
{
    let to = place_of(places, target);
    let mut inner = Items::new(alloc);
    put(&mut inner, to)?;
    add_commands(body, alloc, places, &mut inner)?;
    Ok(PlacedCmd::StackAlloc {
        bytes,
        target: target_register(to),
        body: closed(inner),
    })
}

// Adds the code of a block's commands.
#[cycle(code)]
fn add_commands(
    block: &FlatBlock,
    alloc: Global,
    places: &[Place],
    code: &mut Items<PlacedCmd>,
) -> Result<(), AllocError>
    requires { NamesBelow (length places.now) (flat_block block.now) }
    ensures { OnOk result
        (Writes code.old code.new (spill (place_of places.now) (flat_block block.now))) }
{
    for c in block.commands.as_slice() {
        add_command(c, alloc, places, code)?;
    }
    Ok(())
}

/// The code of a block, for these places of the function's variables.
#[cycle(code)]
pub fn place_block(
    block: &FlatBlock,
    alloc: Global,
    places: &[Place],
) -> Result<PlacedBlock, AllocError>
    requires { NamesBelow (length places.now) (flat_block block.now) }
    ensures { IfOk result (λ made.
        placed_block made ≡ spill (place_of places.now) (flat_block block.now) Nothing) }
{
    let mut code = Items::new(alloc);
    add_commands(block, alloc, places, &mut code)?;
    Ok(closed(code))
}
