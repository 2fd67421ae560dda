// The bytes that a running program owns.
ghost use Rattle.std.specs.Prelude.{◌≡◌, ◌+◌, ◌<◌, ◌≤◌, ◌^◌, IfOk, length, replicate, slice_get};
ghost use Rattle.lb_source.specs.Maps.{nothing_owned};
ghost use Rattle.lb_source.specs.Value.{load, byte_count};
ghost use Rattle.lb_source.specs.InternalMachine.{Fills, Writes, memory_of};

use crate::ends::Reason;
use lb_memory::STACK_TOP;
use lb_syntax::Width;
use std::alloc::{AllocError, Global};
use std::marker::Model;

/// What is known of one address.
#[derive(Clone, Copy, Debug, PartialEq, Eq)]
pub enum Cell {
    /// It isn't owned.
    Absent,
    /// It is owned and unset.
    Unset,
    /// It is owned and has this byte.
    Holds(u8),
}

/// A cell for each address below the stack's beginning. Contracts see the list of them.
#[derive(Drop)]
pub struct Bytes {
    cells: Vec<Cell>,
}

impl Model for Bytes {
    ghost use Rattle.std.specs.Prelude.{List, ◌≡◌, length};
    ghost use Rattle.lb_memory.specs.declared.TheConstants.{STACK_TOP};
    ghost use Rattle.lb_source.specs.declared.memory.Cell.{Cell};

    ghost Value = { List Cell };

    ghost view = { λ b. b.cells.items };

    ghost invariant = { λ b. length b.cells.items ≡ STACK_TOP };
}

impl Bytes {
    /// Nothing is owned.
    pub fn new(alloc: Global) -> Result<Bytes, AllocError>
        ensures { IfOk result (λ b. memory_of b ≡ nothing_owned) }
    {
        let cells = absent_cells(alloc, STACK_TOP as usize)?;
        Ok(Bytes { cells })
    }

    /// What is known of an address.
    fn cell(&self, address: u32) -> Option<Cell>
        ensures { result ≡ slice_get self.now address }
    {
        self.cells.get(address as usize).copied()
    }

    /// The byte at an address.
    fn byte(&self, address: u32) -> Result<u32, Reason>
        ensures value { result ≡ load (memory_of self.now) 1 address }
        ensures small { IfOk result (λ b. b < 2 ^ 8) }
    {
        match self.cell(address) {
            None | Some(Cell::Absent) => Err(Reason::NotOwned),
            Some(Cell::Unset) => Err(Reason::UnsetByte),
            Some(Cell::Holds(b)) => Ok(b as u32),
        }
    }

    /// The bytes from an address on, the least significant first.
    pub fn load(&self, width: Width, address: u32) -> Result<u32, Reason>
        ensures { result ≡ load (memory_of self.now) (byte_count width) address }
    {
        match width {
            Width::One => self.byte(address),
            Width::Two => {
                let low = self.byte(address)?;
                let high = self.byte(address.wrapping_add(1))?;
                Ok(low + 256 * high)
            }
            Width::Four => {
                let a = self.byte(address)?;
                let b = self.byte(address.wrapping_add(1))?;
                let c = self.byte(address.wrapping_add(2))?;
                let d = self.byte(address.wrapping_add(3))?;
                Ok(a + 256 * (b + 256 * (c + 256 * d)))
            }
        }
    }

    /// Writes the low byte of a value at an address, which must be owned.
    fn store_byte(&mut self, address: u32, value: u32) -> Result<(), Reason>
        ensures { Writes 1 address value self.old result self.new }
    {
        match self.cell(address) {
            None | Some(Cell::Absent) => Err(Reason::NotOwned),
            Some(Cell::Unset) | Some(Cell::Holds(_)) => {
                self.cells[address as usize] = Cell::Holds((value % 256) as u8);
                Ok(())
            }
        }
    }

    /// Writes the low bytes of a value from an address on, the least significant first.
    pub fn store(&mut self, width: Width, address: u32, value: u32) -> Result<(), Reason>
        ensures { Writes (byte_count width) address value self.old result self.new }
    {
        self.store_byte(address, value)?;
        match width {
            Width::One => Ok(()),
            Width::Two => self.store_byte(address.wrapping_add(1), value >> 8),
            Width::Four => {
                self.store_byte(address.wrapping_add(1), value >> 8)?;
                self.store_byte(address.wrapping_add(2), value >> 16)?;
                self.store_byte(address.wrapping_add(3), value >> 24)
            }
        }
    }

    /// Makes n addresses from `base` on this.
    pub fn fill(&mut self, base: u32, n: u32, cell: Cell)
        requires { base + n ≤ STACK_TOP }
        ensures { Fills base n cell self.old self.new }
    {
        fill_cells(&mut self.cells, base as usize, n as usize, cell);
    }
}

fn absent_cells(alloc: Global, n: usize) -> Result<Vec<Cell>, AllocError>
    ensures { IfOk result (λ cells. cells.items ≡ replicate n Cell.Absent) }
{
    vec![in alloc; Cell::Absent; n]
}

fn fill_cells(cells: &mut [Cell], base: usize, n: usize, cell: Cell)
    requires { base + n ≤ length cells.old }
    ensures { Fills base n cell cells.old cells.new }
{
    for i in 0..n {
        cells[base + i] = cell;
    }
}
