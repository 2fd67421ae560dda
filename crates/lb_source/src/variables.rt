// The variables of a function that runs.
ghost use Rattle.std.specs.Prelude.{◌≡◌, OnOk, Some, None};
ghost use Rattle.lb_source.specs.InternalMachine.{Puts, variables_of, without};

use lb_syntax::Name;
use std::alloc::{AllocError, Global};

/// A variable that is set.
#[derive(Drop)]
pub struct Entry {
    pub name: Name,
    pub value: u32,
}

/// The value of a variable, if it is set.
pub fn find(entries: &[Entry], name: &Name) -> Option<u32>
    ensures { result ≡ variables_of entries.now name.now }
{
    for entry in entries {
        if entry.name == *name {
            return Some(entry.value);
        }
    }
    None
}

/// Unsets a variable, which may be unset already.
pub fn unset(entries: &mut Vec<Entry>, name: &Name)
    ensures entries { entries.new.items ≡ without name.now entries.old.items }
    ensures map { Puts name.now None entries.old.items entries.new.items }
{
    entries.retain(|entry| entry.name != *name);
}

/// Sets a variable.
pub fn assign(
    alloc: Global,
    entries: &mut Vec<Entry>,
    name: &Name,
    value: u32,
) -> Result<(), AllocError>
    ensures { OnOk result (Puts name.now (Some value) entries.old.items entries.new.items) }
{
    let name_copy = name.copy(alloc)?;
    unset(entries, name);
    entries.push(Entry {
        name: name_copy,
        value,
    })?;
    Ok(())
}
