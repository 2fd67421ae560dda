// A proposal for the places of a function's variables, by graph colouring, the most used variable
// first. Places are numbered, the registers before the slots.
ghost use Rattle.lb_flat.specs.Flat.{flat_routine};
ghost use Rattle.lb_alloc.specs.InternalSets.{NamesItsOwn};

use crate::allocation::{VARIABLE_REGISTERS, own_place};
use crate::interference::{CopyEdge, Interference, interference_of};
use lb_flat::{FlatFunction, Place};
use std::alloc::{AllocError, Global};

// The variable that is used most among those that have no place.
fn most_used(uses: &[u64], chosen: &[Option<usize>]) -> Option<usize> {
    let mut best: Option<(usize, u64)> = None;
    for (variable, (count, place)) in uses.iter().zip(chosen.iter()).enumerate() {
        let more = match best {
            Some((_, most)) => most < *count,
            None => true,
        };
        if place.is_none() && more {
            best = Some((variable, *count));
        }
    }
    best.map(|(variable, _)| variable)
}

// For each place whether a variable that interferes with this one has it.
fn taken_places(
    alloc: Global,
    graph: &Interference,
    chosen: &[Option<usize>],
    variable: usize,
) -> Result<Vec<bool>, AllocError> {
    let mut taken = vec![in alloc; false; chosen.len()]?;
    for (other, place) in chosen.iter().enumerate() {
        if let Some(place) = place
            && graph.has(variable, other)
            && let Some(bit) = taken.get_mut(*place)
        {
            *bit = true;
        }
    }
    Ok(taken)
}

// The other end of a copy from or to the variable.
fn partner(copy: &CopyEdge, variable: usize) -> Option<usize> {
    if copy.target as usize == variable {
        Some(copy.source as usize)
    } else if copy.source as usize == variable {
        Some(copy.target as usize)
    } else {
        None
    }
}

// For each register how often a copy would be saved if the variable had it.
fn savings(
    alloc: Global,
    copies: &[CopyEdge],
    chosen: &[Option<usize>],
    variable: usize,
) -> Result<Vec<u64>, AllocError> {
    let mut savings = vec![in alloc; 0u64; VARIABLE_REGISTERS as usize]?;
    for copy in copies {
        if let Some(other) = partner(copy, variable)
            && let Some(Some(place)) = chosen.get(other)
            && let Some(saved) = savings.get_mut(*place)
        {
            *saved = saved.saturating_add(copy.weight);
        }
    }
    Ok(savings)
}

// The free register that saves most, the first of several.
fn best_register(taken: &[bool], savings: &[u64]) -> Option<usize> {
    let mut best: Option<(usize, u64)> = None;
    for (register, (is_taken, saved)) in taken.iter().zip(savings.iter()).enumerate() {
        let more = match best {
            Some((_, most)) => most < *saved,
            None => true,
        };
        if !*is_taken && more {
            best = Some((register, *saved));
        }
    }
    best.map(|(register, _)| register)
}

// A register, or else the first slot that is free.
fn best_place(taken: &[bool], savings: &[u64]) -> usize {
    match best_register(taken, savings) {
        Some(register) => register,
        None => taken.iter().position(|is_taken| !*is_taken).unwrap_or(0),
    }
}

// For each variable the number of a place, chosen in the order of use.
fn choose(alloc: Global, graph: &Interference) -> Result<Vec<Option<usize>>, AllocError> {
    let mut chosen = vec![in alloc; None; graph.uses().len()]?;
    for _ in 0..graph.uses().len() {
        if let Some(variable) = most_used(graph.uses(), chosen.as_slice()) {
            let taken = taken_places(alloc, graph, chosen.as_slice(), variable)?;
            let savings = savings(alloc, graph.copies(), chosen.as_slice(), variable)?;
            let place = best_place(taken.as_slice(), savings.as_slice());
            if let Some(entry) = chosen.get_mut(variable) {
                *entry = Some(place);
            }
        }
    }
    Ok(chosen)
}

/// Places that may serve, for a function that names no variables but its own.
pub fn propose(alloc: Global, f: &FlatFunction) -> Result<Vec<Place>, AllocError>
    requires { NamesItsOwn (flat_routine f.now) }
{
    let graph = interference_of(alloc, f)?;
    let chosen = choose(alloc, &graph)?;
    let mut places = Vec::new(alloc);
    for place in chosen.as_slice() {
        let number = u32::try_from(place.unwrap_or(0)).unwrap_or(0);
        places.push(own_place(number))?;
    }
    Ok(places)
}
