// Which variables must not share a place, which would better, and how often each is used. This serves
// a proposal, which is judged before it is taken: so nothing is claimed of it.
ghost use Rattle.std.specs.Prelude.{◌≡◌, length, All};
ghost use Rattle.lb_flat.specs.Flat.{flat_command, flat_block, flat_routine};
ghost use Rattle.lb_flat.specs.Order.{IsVariable};
ghost use Rattle.lb_alloc.specs.InternalSets.{NamesVariables, NamesItsOwn};

use crate::liveness::{live_command, names_in_command};
use crate::step::step_of;
use crate::variables::VariableSet;
use lb_flat::{FlatBlock, FlatCmd, FlatFunction};
use std::alloc::{AllocError, Global};

/// A copy from one variable to another, and how often it is done.
#[derive(Clone, Copy)]
pub struct CopyEdge {
    pub target: u32,
    pub source: u32,
    pub weight: u64,
}

/// The interference graph of a function.
#[derive(Drop)]
pub struct Interference {
    // for each variable those that must not share its place
    rows: Vec<VariableSet>,
    // for each variable how often it is read or set
    uses: Vec<u64>,
    copies: Vec<CopyEdge>,
    // how often the commands are run that are noted now, as far as loops tell
    weight: u64,
}

// How many turns a loop is taken to make.
const TURNS: u64 = 8;

impl Interference {
    // No edge among so many variables.
    fn none(alloc: Global, variables: usize) -> Result<Interference, AllocError> {
        let mut rows = Vec::new(alloc);
        for _ in 0..variables {
            rows.push(VariableSet::none(alloc, variables)?)?;
        }
        let uses = vec![in alloc; 0; variables]?;
        Ok(Interference {
            rows,
            uses,
            copies: Vec::new(alloc),
            weight: 1,
        })
    }

    /// Whether these two must not share a place.
    pub fn has(&self, first: usize, second: usize) -> bool {
        match self.rows.get(first) {
            Some(row) => row.contains(second),
            None => false,
        }
    }

    /// For each variable how often it is read or set.
    pub fn uses(&self) -> &[u64] {
        self.uses.as_slice()
    }

    /// The copies between variables.
    pub fn copies(&self) -> &[CopyEdge] {
        self.copies.as_slice()
    }

    fn add_edge(&mut self, first: usize, second: usize) {
        if let Some(row) = self.rows.get_mut(first) {
            row.insert(second);
        }
        if let Some(row) = self.rows.get_mut(second) {
            row.insert(first);
        }
    }

    // The variable is set where those are live behind.
    fn add_edges(&mut self, variable: usize, behind: &VariableSet) {
        for x in 0..behind.len() {
            if x != variable && behind.contains(x) {
                self.add_edge(variable, x);
            }
        }
    }

    fn add_all_edges(&mut self, sets: &[u32], behind: &VariableSet) {
        for variable in sets {
            self.add_edges(*variable as usize, behind);
        }
    }

    fn add_uses(&mut self, variables: &[u32]) {
        for variable in variables {
            if let Some(uses) = self.uses.get_mut(*variable as usize) {
                *uses = uses.saturating_add(self.weight);
            }
        }
    }

    fn add_copy(&mut self, target: u32, source: u32) -> Result<(), AllocError> {
        let weight = self.weight;
        self.copies.push(CopyEdge {
            target,
            source,
            weight,
        })?;
        Ok(())
    }

    // A step that reads and sets these; the set of live variables goes from behind the step to
    // before it.
    fn note_step(&mut self, reads: &[u32], sets: &[u32], set: &mut VariableSet)
        requires reads { All (IsVariable (length set.old)) reads.now }
        requires sets { All (IsVariable (length set.old)) sets.now }
        ensures { length set.new ≡ length set.old }
    {
        self.add_uses(reads);
        self.add_uses(sets);
        self.add_all_edges(sets, set);
        set.step_back(reads, sets);
    }
}

/// The interference graph of a function.
pub fn interference_of(alloc: Global, f: &FlatFunction) -> Result<Interference, AllocError>
    requires { NamesItsOwn (flat_routine f.now) }
{
    let mut graph = Interference::none(alloc, f.variables as usize)?;
    let mut set = VariableSet::none(alloc, f.variables as usize)?;
    graph.note_step(f.results.as_slice(), &[], &mut set);
    note_block(alloc, &f.body, &mut set, &mut graph)?;
    graph.note_step(&[], f.params.as_slice(), &mut set);
    Ok(graph)
}

// Notes a command; the set goes from the variables that are live behind it to those before it.
#[cycle(note)]
fn note_command(
    alloc: Global,
    c: &FlatCmd,
    set: &mut VariableSet,
    graph: &mut Interference,
) -> Result<(), AllocError>
    requires { NamesVariables (length set.old) (flat_command c.now) }
    ensures { length set.new ≡ length set.old }
{
    match c {
        FlatCmd::StackAlloc { target, body, .. } => {
            note_block(alloc, body, set, graph)?;
            graph.note_step(&[], &[*target], set);
        }
        FlatCmd::If { condition, yes, no } => {
            let mut first = set.copy(alloc)?;
            note_block(alloc, yes, &mut first, graph)?;
            note_block(alloc, no, set, graph)?;
            set.join(&first);
            set.step_back_test(*condition);
            graph.add_uses(&[*condition]);
        }
        FlatCmd::While {
            before,
            condition,
            body,
        } => {
            let mut round = set.copy(alloc)?;
            live_command(alloc, c, &mut round)?;
            let outer = graph.weight;
            graph.weight = outer.saturating_mul(TURNS);
            note_block(alloc, body, &mut round, graph)?;
            set.join(&round);
            set.step_back_test(*condition);
            graph.add_uses(&[*condition]);
            note_block(alloc, before, set, graph)?;
            graph.weight = outer;
        }
        FlatCmd::Assign { target, source } => {
            graph.add_copy(*target, *source)?;
            graph.note_step(&[*source], &[*target], set);
        }
        _ => {
            let step = step_of(c);
            graph.note_step(step.reads(), step.sets(), set);
        }
    }
    Ok(())
}

// The same of a block.
#[cycle(note)]
fn note_block(
    alloc: Global,
    block: &FlatBlock,
    set: &mut VariableSet,
    graph: &mut Interference,
) -> Result<(), AllocError>
    requires { NamesVariables (length set.old) (flat_block block.now) }
    ensures { length set.new ≡ length set.old }
{
    let commands = block.commands.as_slice();
    let mut i = commands.len();
    while i > 0 {
        i -= 1;
        let Some(c) = commands.get(i) else {
            unreachable!()
        };
        names_in_command(commands, i, c, set.len());
        note_command(alloc, c, set, graph)?;
    }
    Ok(())
}
