//! What a whole target needs: each class can be spilled and reloaded, has an unreserved register,
//! and has a part for each index that fits.

ghost use Rattle.std.specs.Prelude.{◌≡◌};
ghost use Rattle.std.specs.List.{list_all, list_any};
ghost use Rattle.target_base.specs.Rules.{spills, reloads, part_is_there, is_complete};
ghost use Rattle.target_base.specs.Storage.{is_unreserved};

use target_base::classes::{does_reload, does_spill, find_part, have_subs};
use target_base::registers::is_unreserved;
use target_base::{ClassDesc, IndexDesc, OpcodeDesc, Reg, RegDesc, Unit};

fn has_spill(classes: &[ClassDesc], rs: &[Reg], opcodes: &[OpcodeDesc]) -> bool
    ensures { result ≡ list_any (spills classes.now rs.now) opcodes.now }
{
    opcodes.iter().any(|o| does_spill(classes, rs, o))
}

fn has_reload(classes: &[ClassDesc], rs: &[Reg], opcodes: &[OpcodeDesc]) -> bool
    ensures { result ≡ list_any (reloads classes.now rs.now) opcodes.now }
{
    opcodes.iter().any(|o| does_reload(classes, rs, o))
}

fn has_unreserved(reserved: &[Unit], regs: &[RegDesc], rs: &[Reg]) -> bool
    ensures { result ≡ list_any (is_unreserved reserved.now regs.now) rs.now }
{
    rs.iter().any(|r| is_unreserved(reserved, regs, *r))
}

/// Whether some class is the part of these registers for the index, where the index fits them.
fn part_is_there(regs: &[RegDesc], classes: &[ClassDesc], rs: &[Reg], i: &IndexDesc) -> bool
    ensures { result ≡ part_is_there regs.now classes.now rs.now i.now }
{
    let lanes = i.lanes.as_slice();
    !have_subs(regs, lanes, rs) || find_part(regs, classes, lanes, rs).is_some()
}

fn has_parts(regs: &[RegDesc], classes: &[ClassDesc], indexes: &[IndexDesc], rs: &[Reg]) -> bool
    ensures { result ≡ list_all (part_is_there regs.now classes.now rs.now) indexes.now }
{
    indexes.iter().all(|i| part_is_there(regs, classes, rs, i))
}

/// Whether a class can be spilled and reloaded, has an unreserved register, and has a part for
/// each index that fits.
pub(crate) fn is_complete(
    regs: &[RegDesc],
    reserved: &[Unit],
    indexes: &[IndexDesc],
    classes: &[ClassDesc],
    opcodes: &[OpcodeDesc],
    c: &ClassDesc,
) -> bool
    ensures { result ≡ is_complete regs.now reserved.now indexes.now classes.now opcodes.now c.now }
{
    let rs = c.regs.as_slice();
    has_spill(classes, rs, opcodes)
        && has_reload(classes, rs, opcodes)
        && has_unreserved(reserved, regs, rs)
        && has_parts(regs, classes, indexes, rs)
}
