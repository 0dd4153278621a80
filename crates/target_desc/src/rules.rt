//! The rules of a line after the lines before it.

ghost use Rattle.std.specs.Prelude.{◌≡◌, ◌<◌, ◌==◌, map, length, nat_lt};
ghost use Rattle.std.specs.List.{list_all, list_any};
ghost use Rattle.target_base.specs.Names.{are_distinct_numbers, is_flag_word};
ghost use Rattle.target_base.specs.Rules.{most_lanes, is_unit_desc, is_reg_desc, is_index_desc, is_class_desc, is_mask_desc, is_opcode_desc};
ghost use Rattle.target_base.specs.Storage.{reg_units, widths, same_numbers};
ghost use Rattle.target_desc.specs.Standing.{starts, stands, stands_in};

use crate::draft::{Draft, Line};
use crate::roles::{are_known, fit, scale_fits};
use crate::text::{is_flag_word, is_name, is_op_name};
use crate::widths::total_width;
use target_base::classes::{first_units, have_same_widths};
use target_base::registers::units_at;
use target_base::{
    Bytes, ClassDesc, IndexDesc, MaskDesc, OpcodeDesc, Reg, RegDesc, Unit, UnitDesc,
};

/// The lanes of a register at most.
fn most_lanes(version: u8) -> usize
    ensures { result ≡ most_lanes version }
{
    if version == 2 { 32 } else { 16 }
}

fn any_unit(us: &[Unit], u: Unit) -> bool
    ensures { result ≡ list_any (λ v. u.0 == v.0) us.now }
{
    us.iter().any(|v| u.0 == v.0)
}

fn has_unit(us: &[Unit], u: Unit) -> bool
    ensures { result ≡ list_any (λ n. u.0 == n) (map (λ v. v.0) us.now) }
{
    any_unit(us, u)
}

fn any_reg(rs: &[Reg], r: Reg) -> bool
    ensures { result ≡ list_any (λ q. r.0 == q.0) rs.now }
{
    rs.iter().any(|q| r.0 == q.0)
}

fn has_reg(rs: &[Reg], r: Reg) -> bool
    ensures { result ≡ list_any (λ n. r.0 == n) (map (λ q. q.0) rs.now) }
{
    any_reg(rs, r)
}

fn has_lane(lanes: &[u8], lane: u8) -> bool
    ensures { result ≡ list_any (λ n. lane == n) lanes.now }
{
    lanes.iter().any(|k| lane == *k)
}

/// Whether no unit stands twice.
fn are_distinct_units(us: &[Unit]) -> bool
    ensures { result ≡ are_distinct_numbers (map (λ u. u.0) us.now) }
{
    let mut rest = us;
    'units: while let [u, more @ ..] = rest {
        if has_unit(more, *u) {
            return false;
        }
        rest = more;
    }
    true
}

/// Whether no register stands twice.
fn are_distinct_regs(rs: &[Reg]) -> bool
    ensures { result ≡ are_distinct_numbers (map (λ r. r.0) rs.now) }
{
    let mut rest = rs;
    'regs: while let [r, more @ ..] = rest {
        if has_reg(more, *r) {
            return false;
        }
        rest = more;
    }
    true
}

/// Whether no lane stands twice.
fn are_distinct_lanes(lanes: &[u8]) -> bool
    ensures { result ≡ are_distinct_numbers lanes.now }
{
    let mut rest = lanes;
    'lanes: while let [lane, more @ ..] = rest {
        if has_lane(more, *lane) {
            return false;
        }
        rest = more;
    }
    true
}

/// Whether each unit is one of so many.
fn are_units(count: usize, us: &[Unit]) -> bool
    ensures { result ≡ list_all (λ u. nat_lt u.0 count) us.now }
{
    us.iter().all(|u| (u.0 as usize) < count)
}

/// Whether each register is one of so many.
fn are_regs(count: usize, rs: &[Reg]) -> bool
    ensures { result ≡ list_all (λ r. nat_lt r.0 count) rs.now }
{
    rs.iter().all(|r| (r.0 as usize) < count)
}

/// Whether each lane is one of so many.
fn are_lanes(count: usize, lanes: &[u8]) -> bool
    ensures { result ≡ list_all (λ k. nat_lt k count) lanes.now }
{
    lanes.iter().all(|k| (*k as usize) < count)
}

fn is_unit_desc(u: &UnitDesc) -> bool
    ensures { result ≡ is_unit_desc u.now }
{
    is_name(u.name.as_slice()) && 1 <= u.width && u.width <= 128
}

fn is_reg_desc(version: u8, units: &[UnitDesc], r: &RegDesc) -> bool
    ensures { result ≡ is_reg_desc version units.now r.now }
{
    let us = r.units.as_slice();
    is_name(r.name.as_slice())
        && 0 < us.len()
        && us.len() <= most_lanes(version)
        && are_units(units.len(), us)
        && are_distinct_units(us)
        && total_width(units, us) <= 128
}

fn is_index_desc(version: u8, i: &IndexDesc) -> bool
    ensures { result ≡ is_index_desc version i.now }
{
    let lanes = i.lanes.as_slice();
    is_name(i.name.as_slice())
        && 0 < lanes.len()
        && are_lanes(most_lanes(version), lanes)
        && are_distinct_lanes(lanes)
}

/// Whether all these registers have the widths of these units.
fn have_widths(units: &[UnitDesc], regs: &[RegDesc], rs: &[Reg], first: &[Unit]) -> bool
    ensures { result ≡ list_all (λ r. same_numbers (widths units.now (reg_units regs.now r)) (widths units.now first.now)) rs.now }
{
    rs.iter()
        .all(|r| have_same_widths(units, units_at(regs, *r), first))
}

fn is_class_desc(units: &[UnitDesc], regs: &[RegDesc], c: &ClassDesc) -> bool
    ensures { result ≡ is_class_desc units.now regs.now c.now }
{
    let rs = c.regs.as_slice();
    is_name(c.name.as_slice())
        && 0 < rs.len()
        && rs.len() <= 64
        && are_regs(regs.len(), rs)
        && are_distinct_regs(rs)
        && have_widths(units, regs, rs, first_units(regs, rs))
}

fn is_mask_desc(regs: usize, m: &MaskDesc) -> bool
    ensures { result ≡ is_mask_desc regs m.now }
{
    let rs = m.regs.as_slice();
    is_name(m.name.as_slice()) && 0 < rs.len() && are_regs(regs, rs)
}

fn is_opcode_desc(
    units: &[UnitDesc],
    regs: &[RegDesc],
    classes: &[ClassDesc],
    o: &OpcodeDesc,
) -> bool
    ensures { result ≡ is_opcode_desc units.now regs.now classes.now o.now }
{
    let roles = o.roles.as_slice();
    if !is_op_name(o.name.as_slice()) {
        return false;
    }
    if !are_known(classes.len(), regs.len(), roles) {
        return false;
    }
    if !scale_fits(o.effect) {
        return false;
    }
    fit(units, regs, classes, o.effect, roles)
}

fn are_flag_words(words: &[Bytes]) -> bool
    ensures { result ≡ list_all is_flag_word words.now }
{
    words.iter().all(|word| is_flag_word(word.as_slice()))
}

/// Whether a line keeps the rules under a `target` line of this version.
#[tactic(auto, unfolding(crate::specs::Standing::stands_in))]
fn stands_in(version: u8, d: &Draft, line: &Line) -> bool
    ensures { result ≡ stands_in version d.now line.now }
{
    let (units, regs) = (d.units.as_slice(), d.regs.as_slice());
    match line {
        Line::Target(_) => false,
        Line::Unit(u) => units.len() < 512 && is_unit_desc(u),
        Line::Reg(r) => regs.len() < 512 && is_reg_desc(version, units, r),
        Line::Reserved(rs) => are_regs(regs.len(), rs.as_slice()),
        Line::Index(i) => d.indexes.len() < 512 && is_index_desc(version, i),
        Line::Class(c) => d.classes.len() < 512 && is_class_desc(units, regs, c),
        Line::Mask(m) => d.masks.len() < 512 && is_mask_desc(regs.len(), m),
        Line::Opcode(o) => {
            d.opcodes.len() < 1024 && is_opcode_desc(units, regs, d.classes.as_slice(), o)
        }
        Line::Forms(_) => true,
        Line::Flags(words) => are_flag_words(words.as_slice()),
    }
}

/// Whether the first line that says something is a `target` line.
fn starts(line: &Line) -> bool
    ensures { result ≡ starts line.now }
{
    match line {
        Line::Target(h) => is_name(h.name.as_slice()) && (h.version == 1 || h.version == 2),
        _ => false,
    }
}

/// Whether a line keeps the rules on numbers, on the order of lines, and on roles and widths.
pub(crate) fn stands(d: &Draft, line: &Line) -> bool
    ensures { result ≡ stands d.now line.now }
{
    match &d.header {
        None => starts(line),
        Some(header) => stands_in(header.version, d, line),
    }
}
