//! Printing documents, by appending to a text.

ghost use Rattle.std.specs.Prelude.{◌≡◌, ◌<◌, ◌≤◌, ◌++◌, ◌∷◌, [], ◌^◌, OnOk, IfOk, not, codes, take, drop, slice_get, slice_set, None, length, ◌&&◌, false};
ghost use Rattle.std.specs.List.{join_by, flat_map};
ghost use Rattle.std.specs.Fmt.{decimal, signed_decimal, digit_glyph};
ghost use Rattle.mir_func.specs.Binding.{explicit_roles};
ghost use Rattle.mir_meaning.specs.Codes.{is_open};
ghost use Rattle.mir_text.specs.Print.{reg_name, class_name, flag, is_explicit_def, def_count, implicit_word, print_index, print_class, print_loc, print_reg, left_behind_loc, left_behind, left_behind_all, print_operand, print_more, print_operands, print_tail, print_parts, print_instr, print_instrs, left_behind_instrs, hex, print_edge, print_edges, print_successors, print_livein, print_liveins, print_block_name, print_attributes, print_header, print_block, print_blocks, print_lines, print_function, print_doc};

use crate::doc::Doc;
use mir_func::opcodes::{is_early, next_role, roles_of};
use mir_func::spelling::{index_name, mask_name, op_name};
use mir_func::{Block, Classes, Edge, Func, Instr, Loc, Operand, RegOp};
use mir_meaning::ends::is_open;
use std::alloc::{AllocError, Global};
use target_base::{Boxed, Bytes, ClassId, Copied, IndexId, List, Reg, Role, Target};

fn put(out: &mut Bytes, text: &str) -> Result<(), AllocError>
    ensures { OnOk result (out.new ≡ out.old ++ text.now) }
{
    out.extend(text.as_bytes())
}

fn put_if(out: &mut Bytes, on: bool, word: &str) -> Result<(), AllocError>
    ensures { OnOk result (out.new ≡ out.old ++ flag on word.now) }
{
    if on { put(out, word) } else { Ok(()) }
}

fn put_number(out: &mut Bytes, n: u32) -> Result<(), AllocError>
    ensures { OnOk result (out.new ≡ out.old ++ decimal n) }
{
    let text = n.to_string(out.allocator())?;
    put(out, text.as_str())
}

fn put_numbered(out: &mut Bytes, prefix: &str, n: u32) -> Result<(), AllocError>
    ensures { OnOk result (out.new ≡ out.old ++ (prefix.now ++ decimal n)) }
{
    put(out, prefix)?;
    put_number(out, n)
}

fn put_named(out: &mut Bytes, prefix: &str, name: &[u8]) -> Result<(), AllocError>
    ensures { OnOk result (out.new ≡ out.old ++ (prefix.now ++ name.now)) }
{
    put(out, prefix)?;
    out.extend(name)?;
    Ok(())
}

/// The name of a register, or nothing where the target doesn't have it.
pub(crate) fn reg_name(target: &Target, r: Reg) -> &[u8]
    ensures { result.now ≡ reg_name target.now r }
{
    match target.regs.as_slice().get(r.0 as usize) {
        None => &[],
        Some(d) => d.name.as_slice(),
    }
}

/// The name of a class, or nothing where the target doesn't have it.
pub fn class_name(target: &Target, c: ClassId) -> &[u8]
    ensures { result.now ≡ class_name target.now c }
{
    match target.classes.as_slice().get(c.0 as usize) {
        None => &[],
        Some(d) => d.name.as_slice(),
    }
}

fn put_implicit(out: &mut Bytes, r: &RegOp) -> Result<(), AllocError>
    ensures { OnOk result (out.new ≡ out.old ++ implicit_word r.now) }
{
    if !r.implicit {
        return Ok(());
    }
    put(out, if r.def { "implicit-def " } else { "implicit " })
}

fn put_index(out: &mut Bytes, target: &Target, index: Option<IndexId>) -> Result<(), AllocError>
    ensures { OnOk result (out.new ≡ out.old ++ print_index target.now index) }
{
    match index {
        None => Ok(()),
        Some(i) => put_named(out, ".", index_name(target, i)),
    }
}

/// Appends the class of a range number where it is still to be printed.
fn put_class(
    out: &mut Bytes,
    target: &Target,
    left: &[Option<ClassId>],
    n: u32,
) -> Result<(), AllocError>
    ensures { OnOk result (out.new ≡ out.old ++ print_class target.now (slice_get left.now n)) }
{
    match left.get(n as usize) {
        Some(Some(c)) => put_named(out, ":", class_name(target, *c)),
        _ => Ok(()),
    }
}

fn put_virtual(
    out: &mut Bytes,
    target: &Target,
    left: &[Option<ClassId>],
    n: u32,
    index: Option<IndexId>,
) -> Result<(), AllocError>
    ensures { OnOk result (out.new ≡ out.old ++ (codes "%" ++ (decimal n ++ (print_index target.now index ++ print_class target.now (slice_get left.now n))))) }
{
    put_numbered(out, "%", n)?;
    put_index(out, target, index)?;
    put_class(out, target, left, n)
}

fn put_loc(
    out: &mut Bytes,
    target: &Target,
    left: &[Option<ClassId>],
    r: &RegOp,
) -> Result<(), AllocError>
    ensures { OnOk result (out.new ≡ out.old ++ print_loc target.now left.now r.now r.now.loc) }
{
    match r.loc {
        Loc::Virtual(n) => put_virtual(out, target, left, n, r.index),
        Loc::Fixed(p) => put_named(out, "$", reg_name(target, p)),
    }
}

/// Whether the flag `early-clobber` is printed: at an explicit definition that stands in an early
/// role.
fn shows_early(early: bool, r: &RegOp) -> bool
    ensures { result ≡ (early && (r.now.def && not r.now.implicit)) }
{
    early && (r.def && !r.implicit)
}

fn put_reg(
    out: &mut Bytes,
    target: &Target,
    left: &[Option<ClassId>],
    early: bool,
    r: &RegOp,
) -> Result<(), AllocError>
    ensures { OnOk result (out.new ≡ out.old ++ print_reg target.now left.now early r.now) }
{
    put_implicit(out, r)?;
    put_if(out, r.undef, "undef ")?;
    put_if(out, shows_early(early, r), "early-clobber ")?;
    put_if(out, r.renamable, "renamable ")?;
    put_loc(out, target, left, r)?;
    Ok(())
}

#[tactic(auto, unfolding(crate::specs::Print::print_operand))]
fn put_operand(
    out: &mut Bytes,
    target: &Target,
    left: &[Option<ClassId>],
    early: bool,
    o: &Operand,
) -> Result<(), AllocError>
    ensures { OnOk result (out.new ≡ out.old ++ print_operand target.now left.now early o.now) }
{
    match o {
        Operand::Reg(r) => put_reg(out, target, left, early, r),
        Operand::Imm(n) => {
            let text = n.to_string(out.allocator())?;
            put(out, text.as_str())
        }
        Operand::Block(n) => put_numbered(out, "%bb.", *n),
        Operand::Stack(n) => put_numbered(out, "%stack.", *n),
        Operand::FixedStack(n) => put_numbered(out, "%fixed-stack.", *n),
        Operand::Symbol(name) => out.extend(name.as_slice()),
        Operand::Index(i) => put_named(out, "%subreg.", index_name(target, *i)),
        Operand::Mask(m) => out.extend(mask_name(target, *m)),
    }
}

/// Marks the class of a range number as printed.
fn mark(left: &mut Classes, n: u32)
    ensures { left.new ≡ slice_set left.old n None }
{
    let k = n as usize;
    if k < left.len() {
        *left.get_mut(k) = None;
    }
}

/// Marks the class of the register that an operand names as printed.
fn mark_operand(left: &mut Classes, o: &Operand)
    ensures { left.new ≡ left_behind left.old o.now }
{
    if let Operand::Reg(r) = o {
        if let Loc::Virtual(n) = r.loc {
            mark(left, n);
        }
    }
}

/// Appends further operands that take these roles, with a comma before each.
fn put_more(
    out: &mut Bytes,
    target: &Target,
    left: &mut Classes,
    roles: &[Role],
    operands: &[Operand],
) -> Result<(), AllocError>
    ensures text { OnOk result (out.new ≡ out.old ++ print_more target.now left.old (explicit_roles roles.now) operands.now) }
    ensures left { OnOk result (left.new ≡ left_behind_all left.old operands.now) }
{
    let mut rest = roles;
    for o in operands {
        let (role, behind) = next_role(rest);
        put(out, ", ")?;
        put_operand(out, target, left.as_slice(), is_early(role), o)?;
        mark_operand(left, o);
        rest = behind;
    }
    Ok(())
}

/// Appends operands that take these roles, with commas between them.
#[tactic(auto, unfolding(crate::specs::Print::print_operands))]
fn put_operands(
    out: &mut Bytes,
    target: &Target,
    left: &mut Classes,
    roles: &[Role],
    operands: &[Operand],
) -> Result<(), AllocError>
    ensures text { OnOk result (out.new ≡ out.old ++ print_operands target.now left.old (explicit_roles roles.now) operands.now) }
    ensures left { OnOk result (left.new ≡ left_behind_all left.old operands.now) }
{
    match operands {
        [] => Ok(()),
        [first, rest @ ..] => {
            let (role, behind) = next_role(roles);
            put_operand(out, target, left.as_slice(), is_early(role), first)?;
            mark_operand(left, first);
            put_more(out, target, left, behind, rest)?;
            Ok(())
        }
    }
}

fn is_explicit_def(o: &Operand) -> bool
    ensures { result ≡ is_explicit_def o.now }
{
    match o {
        Operand::Reg(r) => r.def && !r.implicit,
        _ => false,
    }
}

/// The number of explicit definitions that stand first.
fn def_count(operands: &[Operand]) -> usize
    ensures value { result ≡ def_count operands.now }
    ensures within { result ≤ length operands.now }
{
    let mut count = 0;
    for o in operands {
        if !is_explicit_def(o) {
            return count;
        }
        count += 1;
    }
    count
}

fn put_tail(out: &mut Bytes, tail: &[u8]) -> Result<(), AllocError>
    ensures { OnOk result (out.new ≡ out.old ++ print_tail tail.now) }
{
    if tail.is_empty() {
        return Ok(());
    }
    put_if(out, tail[0] != b',', " ")?;
    out.extend(tail)?;
    Ok(())
}

fn put_parts(
    out: &mut Bytes,
    target: &Target,
    left: &mut Classes,
    i: &Instr,
    defs: &[Operand],
    others: &[Operand],
) -> Result<(), AllocError>
    ensures text { OnOk result (out.new ≡ out.old ++ print_parts target.now left.old i.now defs.now others.now) }
    ensures left { OnOk result (left.new ≡ left_behind_all (left_behind_all left.old defs.now) others.now) }
{
    put_operands(out, target, left, roles_of(target, i), defs)?;
    put_if(out, !defs.is_empty(), " = ")?;
    out.extend(i.flags.as_slice())?;
    put_if(out, !i.flags.as_slice().is_empty(), " ")?;
    out.extend(op_name(target, &i.op))?;
    put_if(out, !others.is_empty(), " ")?;
    put_operands(out, target, left, &[], others)?;
    put_tail(out, i.tail.as_slice())?;
    Ok(())
}

fn put_instr(
    out: &mut Bytes,
    target: &Target,
    left: &mut Classes,
    i: &Instr,
) -> Result<(), AllocError>
    ensures text { OnOk result (out.new ≡ out.old ++ print_instr target.now left.old i.now) }
    ensures left { OnOk result (left.new ≡ left_behind_all left.old i.now.operands) }
{
    let operands = i.operands.as_slice();
    let (defs, others) = operands.split_at(def_count(operands));
    put_parts(out, target, left, i, defs, others)
}

fn put_instrs(
    out: &mut Bytes,
    target: &Target,
    left: &mut Classes,
    instrs: &[Boxed<Instr>],
) -> Result<(), AllocError>
    ensures text { OnOk result (out.new ≡ out.old ++ print_instrs target.now left.old instrs.now) }
    ensures left { OnOk result (left.new ≡ left_behind_instrs left.old instrs.now) }
{
    for i in instrs {
        let i = i.get();
        put(out, "    ")?;
        put_instr(out, target, left, i)?;
        put(out, "\n")?;
    }
    Ok(())
}

/// The lower-case digit of a number below 16.
fn hex_digit(n: u32) -> u8
    requires { n < 16 }
    ensures { result ≡ digit_glyph false n }
{
    if n < 10 {
        b'0' + n as u8
    } else {
        b'a' - 10 + n as u8
    }
}

/// Appends the last `count` digits of a number to base 16.
#[tactic(auto, unfolding(crate::specs::Print::hex))]
fn put_hex(out: &mut Bytes, count: u32, n: u32) -> Result<(), AllocError>
    ensures { OnOk result (out.new ≡ out.old ++ hex count n) }
{
    if count == 0 {
        return Ok(());
    }
    put_hex(out, count - 1, n / 16)?;
    out.push(hex_digit(n % 16))?;
    Ok(())
}

fn put_edge(out: &mut Bytes, e: &Edge) -> Result<(), AllocError>
    ensures { OnOk result (out.new ≡ out.old ++ print_edge e.now) }
{
    put_numbered(out, "%bb.", e.block)?;
    put(out, "(0x")?;
    put_hex(out, 8, e.prob)?;
    put(out, ")")?;
    Ok(())
}

fn put_more_edges(out: &mut Bytes, edges: &[Edge]) -> Result<(), AllocError>
    ensures { OnOk result (out.new ≡ out.old ++ flat_map (λ e. codes ", " ++ print_edge e) edges.now) }
{
    for e in edges {
        put(out, ", ")?;
        put_edge(out, e)?;
    }
    Ok(())
}

fn put_edges(out: &mut Bytes, first: &Edge, rest: &[Edge]) -> Result<(), AllocError>
    ensures { OnOk result (out.new ≡ out.old ++ print_edges first.now rest.now) }
{
    put(out, "    successors: ")?;
    put_edge(out, first)?;
    put_more_edges(out, rest)?;
    put(out, "\n")?;
    Ok(())
}

/// Appends the successors of a block. A block without any has no such line, but an open one has a
/// line with nothing behind the colon.
fn put_successors(out: &mut Bytes, target: &Target, b: &Block) -> Result<(), AllocError>
    ensures { OnOk result (out.new ≡ out.old ++ print_successors (is_open target.now b.now) b.now.successors) }
{
    match b.successors.as_slice() {
        [] => put_if(out, is_open(target, b), "    successors:\n"),
        [first, rest @ ..] => put_edges(out, first, rest),
    }
}

fn put_more_liveins(out: &mut Bytes, target: &Target, regs: &[Reg]) -> Result<(), AllocError>
    ensures { OnOk result (out.new ≡ out.old ++ flat_map (λ r. codes ", " ++ print_livein target.now r) regs.now) }
{
    for r in regs {
        put(out, ", ")?;
        put_named(out, "$", reg_name(target, *r))?;
    }
    Ok(())
}

fn put_regs(out: &mut Bytes, target: &Target, first: Reg, rest: &[Reg]) -> Result<(), AllocError>
    ensures { OnOk result (out.new ≡ out.old ++ print_liveins target.now (first ∷ rest.now)) }
{
    put(out, "    liveins: ")?;
    put_named(out, "$", reg_name(target, first))?;
    put_more_liveins(out, target, rest)?;
    put(out, "\n")?;
    Ok(())
}

fn put_liveins(out: &mut Bytes, target: &Target, regs: &[Reg]) -> Result<(), AllocError>
    ensures { OnOk result (out.new ≡ out.old ++ print_liveins target.now regs.now) }
{
    match regs {
        [] => Ok(()),
        [first, rest @ ..] => put_regs(out, target, *first, rest),
    }
}

fn put_block_name(out: &mut Bytes, name: &[u8]) -> Result<(), AllocError>
    ensures { OnOk result (out.new ≡ out.old ++ print_block_name name.now) }
{
    if name.is_empty() {
        return Ok(());
    }
    put_named(out, ".", name)
}

fn put_attributes(out: &mut Bytes, attributes: &[u8]) -> Result<(), AllocError>
    ensures { OnOk result (out.new ≡ out.old ++ print_attributes attributes.now) }
{
    if attributes.is_empty() {
        return Ok(());
    }
    put_named(out, " (", attributes)?;
    put(out, ")")?;
    Ok(())
}

fn put_header(out: &mut Bytes, b: &Block) -> Result<(), AllocError>
    ensures { OnOk result (out.new ≡ out.old ++ print_header b.now) }
{
    put_numbered(out, "  bb.", b.number)?;
    put_block_name(out, b.name.as_slice())?;
    put_attributes(out, b.attributes.as_slice())?;
    put(out, ":\n")?;
    Ok(())
}

fn put_block(
    out: &mut Bytes,
    target: &Target,
    left: &mut Classes,
    b: &Block,
) -> Result<(), AllocError>
    ensures text { OnOk result (out.new ≡ out.old ++ print_block target.now left.old b.now) }
    ensures left { OnOk result (left.new ≡ left_behind_instrs left.old b.now.instrs) }
{
    put_header(out, b)?;
    put_successors(out, target, b)?;
    put_liveins(out, target, b.liveins.as_slice())?;
    put_instrs(out, target, left, b.instrs.as_slice())?;
    Ok(())
}

fn put_blocks(
    out: &mut Bytes,
    target: &Target,
    left: &mut Classes,
    blocks: &[Block],
) -> Result<(), AllocError>
    ensures { OnOk result (out.new ≡ out.old ++ print_blocks target.now left.old blocks.now) }
{
    for b in blocks {
        put_block(out, target, left, b)?;
    }
    Ok(())
}

/// Appends a function document of these key lines and blocks.
fn put_lines(
    out: &mut Bytes,
    target: &Target,
    head: &[u8],
    left: &mut Classes,
    blocks: &[Block],
) -> Result<(), AllocError>
    ensures { OnOk result (out.new ≡ out.old ++ print_lines target.now head.now left.old blocks.now) }
{
    put(out, "---\n")?;
    out.extend(head)?;
    put_blocks(out, target, left, blocks)?;
    put(out, "...\n")?;
    Ok(())
}

/// Appends a function document.
fn put_function(out: &mut Bytes, target: &Target, f: &Func) -> Result<(), AllocError>
    ensures { OnOk result (out.new ≡ out.old ++ print_function target.now f.now) }
{
    let mut left = f.classes.copied(out.allocator())?;
    put_lines(
        out,
        target,
        f.head.as_slice(),
        &mut left,
        f.blocks.as_slice(),
    )
}

/// The printed spelling of a document of the function alone.
pub(crate) fn print_func(alloc: Global, target: &Target, f: &Func) -> Result<Bytes, AllocError>
    ensures { IfOk result (λ text. text ≡ print_function target.now f.now) }
{
    let mut out = List::new(alloc);
    put_function(&mut out, target, f)?;
    Ok(out)
}

/// The one printed spelling of a document. An IR document and the rest of a file are printed byte
/// for byte. Numbers that the target has no name for print as nothing.
#[tactic(auto, unfolding(crate::specs::Print::print_doc))]
pub fn print_doc(alloc: Global, target: &Target, doc: &Doc) -> Result<Bytes, AllocError>
    ensures { IfOk result (λ text. text ≡ print_doc target.now doc.now) }
{
    match doc {
        Doc::Ir(lines) | Doc::Rest(lines) => lines.copied(alloc),
        Doc::Function(before, f) => {
            let mut out = before.copied(alloc)?;
            put_function(&mut out, target, f)?;
            Ok(out)
        }
    }
}
