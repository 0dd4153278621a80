//! The symbols of a function.

ghost use Rattle.std.specs.Prelude.{◌≡◌, ◌∷◌, [], OnOk, IfOk};
ghost use Rattle.std.specs.List.{list_any};
ghost use Rattle.target_base.specs.Storage.{same_numbers};
ghost use Rattle.mir_interp.specs.Stands.{first_seen, symbols_in, symbols_among, symbols_of};

use mir_func::{Func, Instr, Operand};
use std::alloc::{AllocError, Global};
use target_base::{Boxed, Bytes, List};

/// Whether a list holds a name.
fn holds(names: &[Bytes], name: &[u8]) -> bool
    ensures { result ≡ list_any (same_numbers name.now) names.now }
{
    for other in names {
        if is_same(name, other.as_slice()) {
            return true;
        }
    }
    false
}

/// Whether two names are one.
pub(crate) fn is_same(a: &[u8], b: &[u8]) -> bool
    ensures { result ≡ same_numbers a.now b.now }
{
    a == b
}

/// Adds a symbol, if the list lacks it.
fn add_symbol(names: &mut List<Bytes>, alloc: Global, name: &[u8]) -> Result<(), AllocError>
    ensures { OnOk result (names.new ≡ first_seen names.old (name.now ∷ [])) }
{
    if !holds(names.as_slice(), name) {
        names.push(Bytes::from_slice(alloc, name)?)?;
    }
    Ok(())
}

/// Adds the symbols of operands that the list lacks.
fn add_symbols(
    names: &mut List<Bytes>,
    alloc: Global,
    operands: &[Operand],
) -> Result<(), AllocError>
    ensures { OnOk result (names.new ≡ first_seen names.old (symbols_in operands.now)) }
{
    for o in operands {
        if let Operand::Symbol(name) = o {
            add_symbol(names, alloc, name.as_slice())?;
        }
    }
    Ok(())
}

/// Adds the symbols of instructions that the list lacks.
fn add_all_symbols(
    names: &mut List<Bytes>,
    alloc: Global,
    instrs: &[Boxed<Instr>],
) -> Result<(), AllocError>
    ensures { OnOk result (names.new ≡ first_seen names.old (symbols_among instrs.now)) }
{
    for i in instrs {
        let i = i.get();
        add_symbols(names, alloc, i.operands.as_slice())?;
    }
    Ok(())
}

/// The symbols of a function by first appearance.
pub fn symbols_of(alloc: Global, f: &Func) -> Result<List<Bytes>, AllocError>
    ensures { IfOk result (λ made. made ≡ symbols_of f.now) }
{
    let mut names = List::new(alloc);
    for b in f.blocks.as_slice() {
        add_all_symbols(&mut names, alloc, b.instrs.as_slice())?;
    }
    Ok(names)
}
