//! The frame objects of an allocated function: those of the source, and new spill slots.

ghost use Rattle.std.specs.Prelude.{◌≡◌, nat_eq, not, option_map};
ghost use Rattle.std.specs.List.{list_all, list_any};
ghost use Rattle.target_base.specs.Names.{is_distinct};
ghost use Rattle.source_text.specs.Frames.{same_object, new_objects, has_object, names_none, instr_names_none, block_names_none, are_new};

use mir_func::{Block, Func, Instr, Operand};

fn same_object(o: (u32, bool), p: (u32, bool)) -> bool
    ensures { result ≡ same_object o p }
{
    o.0 == p.0 && o.1 == p.1
}

/// The objects behind the source's, where these stand first.
pub(crate) fn new_objects<'a>(
    objects: &[(u32, bool)],
    others: &'a [(u32, bool)],
) -> Option<&'a [(u32, bool)]>
    ensures { option_map (λ r. r.now) result ≡ new_objects objects.now others.now }
{
    let mut left = others;
    'objects: for o in objects {
        match left {
            [] => return None,
            [p, rest @ ..] => {
                if !same_object(*o, *p) {
                    return None;
                }
                left = rest;
            }
        }
    }
    Some(left)
}

/// Whether one of the objects has this number.
fn has_object(objects: &[(u32, bool)], n: u32) -> bool
    ensures { result ≡ has_object objects.now n }
{
    objects.iter().any(|o| o.0 == n)
}

fn are_spills(objects: &[(u32, bool)]) -> bool
    ensures { result ≡ list_all (λ o. o.1) objects.now }
{
    objects.iter().all(|o| o.1)
}

/// Whether one of the objects has the number of this one.
fn has_number_of(o: (u32, bool), objects: &[(u32, bool)]) -> bool
    ensures { result ≡ list_any (λ p. nat_eq o.0 p.0) objects.now }
{
    objects.iter().any(|p| o.0 == p.0)
}

/// Whether no two of the objects have one number.
fn are_distinct(objects: &[(u32, bool)]) -> bool
    ensures { result ≡ is_distinct (λ o p. nat_eq o.0 p.0) objects.now }
{
    'objects: for k in 0..objects.len() {
        if has_number_of(objects[k], &objects[k + 1..]) {
            return false;
        }
    }
    true
}

/// Whether none of the first objects has the number of one of the others.
fn are_apart(objects: &[(u32, bool)], others: &[(u32, bool)]) -> bool
    ensures { result ≡ list_all (λ o. not (has_object others.now o.0)) objects.now }
{
    objects.iter().all(|o| !has_object(others, o.0))
}

/// Whether the operand names none of the objects.
fn names_none(objects: &[(u32, bool)], operand: &Operand) -> bool
    ensures { result ≡ names_none objects.now operand.now }
{
    match operand {
        Operand::Stack(n) => !has_object(objects, *n),
        _ => true,
    }
}

fn instr_names_none(objects: &[(u32, bool)], i: &Instr) -> bool
    ensures { result ≡ instr_names_none objects.now i.now }
{
    i.operands.as_slice().iter().all(|o| names_none(objects, o))
}

fn block_names_none(objects: &[(u32, bool)], b: &Block) -> bool
    ensures { result ≡ block_names_none objects.now b.now }
{
    b.instrs
        .as_slice()
        .iter()
        .all(|i| instr_names_none(objects, i.get()))
}

fn blocks_name_none(objects: &[(u32, bool)], blocks: &[Block]) -> bool
    ensures { result ≡ list_all (block_names_none objects.now) blocks.now }
{
    blocks.iter().all(|b| block_names_none(objects, b))
}

/// Whether the objects may be new spill slots for a function.
pub(crate) fn are_new(f: &Func, objects: &[(u32, bool)]) -> bool
    ensures { result ≡ are_new f.now objects.now }
{
    are_spills(objects)
        && are_distinct(objects)
        && are_apart(f.frames.as_slice(), objects)
        && blocks_name_none(objects, f.blocks.as_slice())
}
