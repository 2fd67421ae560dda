// Names, numbers and signs.
ghost use Rattle.std.specs.Prelude.{◌≡◌, decimal, OnOk, All};
ghost use Rattle.lb_syntax.specs.Names.{IsName};
ghost use Rattle.lb_syntax.specs.WellFormed.{IsWord};
ghost use Rattle.lb_syntax.specs.Printing.{width_text, action_text, listed, targets_text, results_text};
ghost use Rattle.lb_printing.specs.InternalPrinting.{Appends, access_text};

use lb_syntax::{Action, Name, Width};
use std::alloc::{AllocError, Global};

// How many bytes a load or a store moves.
fn digit_of(width: Width) -> &'static [u8]
    ensures { result.now ≡ width_text width }
{
    match width {
        Width::One => b"1",
        Width::Two => b"2",
        Width::Four => b"4",
    }
}

/// The word of an access.
pub fn word_of(action: Action) -> &'static [u8]
    ensures { result.now ≡ action_text action }
{
    match action {
        Action::Read => b"MMIOREAD",
        Action::Write => b"MMIOWRITE",
    }
}

/// Adds the word of a load or a store, how many bytes it moves, and the bracket behind.
pub fn add_access(text: &mut Vec<u8>, word: &[u8], width: Width) -> Result<(), AllocError>
    ensures { Appends text.old text.new (access_text word.now width) result }
{
    text.extend_from_slice(word)?;
    text.extend_from_slice(digit_of(width))?;
    text.push(b'(')?;
    Ok(())
}

/// Adds a number in decimal.
pub fn add_number(alloc: Global, text: &mut Vec<u8>, number: u32) -> Result<(), AllocError>
    ensures printed { Appends text.old text.new (decimal number) result }
    ensures well_formed { IsWord number }
{
    let digits = format!(in alloc; "{number}")?;
    text.extend_from_slice(digits.as_bytes())?;
    Ok(())
}

/// Adds a name.
pub fn add_name(text: &mut Vec<u8>, name: &Name) -> Result<(), AllocError>
    ensures printed { Appends text.old text.new name.now result }
    ensures well_formed { IsName name.now }
{
    text.extend_from_slice(name.as_bytes())?;
    Ok(())
}

/// Adds names, a comma and a blank between each and the next.
pub fn add_names(text: &mut Vec<u8>, names: &[Name]) -> Result<(), AllocError>
    ensures printed { Appends text.old text.new (listed names.now) result }
    ensures well_formed { OnOk result (All IsName names.now) }
{
    let Some((first, rest)) = names.split_first() else {
        return Ok(());
    };
    add_name(text, first)?;
    for name in rest {
        text.extend_from_slice(b", ")?;
        add_name(text, name)?;
    }
    Ok(())
}

/// Adds the targets of a call and the sign behind them, where it has any.
pub fn add_targets(text: &mut Vec<u8>, targets: &[Name]) -> Result<(), AllocError>
    ensures printed { Appends text.old text.new (targets_text targets.now) result }
    ensures well_formed { OnOk result (All IsName targets.now) }
{
    add_names(text, targets)?;
    if !targets.is_empty() {
        text.extend_from_slice(b" = ")?;
    }
    Ok(())
}

/// Adds the results of a function and the sign before them, where it has any.
pub fn add_results(text: &mut Vec<u8>, results: &[Name]) -> Result<(), AllocError>
    ensures printed { Appends text.old text.new (results_text results.now) result }
    ensures well_formed { OnOk result (All IsName results.now) }
{
    if !results.is_empty() {
        text.extend_from_slice(b" -> (")?;
        add_names(text, results)?;
        text.push(b')')?;
    }
    Ok(())
}
