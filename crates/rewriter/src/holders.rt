//! Which registers hold each unit.

ghost use Rattle.std.specs.Prelude.{◌≡◌, [], true, map, nat_eq, replicate, IfOk, OnOk};
ghost use Rattle.target_base.specs.Names.{are_distinct_numbers};
ghost use Rattle.target_base.specs.Numbers.{unit_number};
ghost use Rattle.target_base.specs.Storage.{is_among};
ghost use Rattle.rewriter.specs.Holders.{AreHolders, IsPut};

use std::alloc::{AllocError, Global};
use target_base::{List, Reg, Regs, Target, Unit};

/// So many lists of registers, which are empty.
fn no_holders(alloc: Global, units: usize) -> Result<List<Regs>, AllocError>
    ensures { IfOk result (λ made. made ≡ replicate units []) }
{
    let mut made = List::new(alloc);
    'lists: while made.len() < units {
        made.push(List::new(alloc))?;
    }
    Ok(made)
}

/// Puts a register at the end of a unit's list, if there is one.
fn push_holder(holders: &mut List<Regs>, u: Unit, r: Reg) -> Result<(), AllocError>
    ensures { OnOk result (IsPut (nat_eq u.0) r holders.old holders.new) }
{
    if (u.0 as usize) < holders.len() {
        holders.get_mut(u.0 as usize).push(r)?;
    }
    Ok(())
}

/// Puts a register at the end of the lists of its units.
fn add_holder(holders: &mut List<Regs>, units: &[Unit], r: Reg) -> Result<(), AllocError>
    requires { are_distinct_numbers (map (λ u. u.0) units.now) ≡ true }
    ensures { OnOk result (IsPut (λ u. is_among units.now (unit_number u)) r holders.old holders.new) }
{
    'units: for k in 0..units.len() {
        push_holder(holders, units[k], r)?;
    }
    Ok(())
}

/// For each unit those of the registers that hold it, in their order.
pub(crate) fn all_holders(
    alloc: Global,
    target: &Target,
    rs: &[Reg],
) -> Result<List<Regs>, AllocError>
    ensures { IfOk result (AreHolders target.now rs.now) }
{
    let mut made = no_holders(alloc, target.units.len())?;
    'regs: for k in 0..rs.len() {
        add_holder(&mut made, target.units_at(rs[k]), rs[k])?;
    }
    Ok(made)
}
