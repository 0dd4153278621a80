//! What a line that stands adds.

ghost use Rattle.std.specs.Prelude.{◌≡◌, ◌<◌, IfOk, IsTrue, length, map, fold, []};
ghost use Rattle.target_desc.specs.Drafts.{no_options, empty_draft, names_of, without_roles, opcode_row, name_in};
ghost use Rattle.word_set.specs.Words.{with_name};
ghost use Rattle.target_desc.specs.Resolving.{is_new};
ghost use Rattle.target_desc.specs.Keeping.{AreFew};
ghost use Rattle.target_desc.specs.Adding.{added, noted};

use crate::draft::{Draft, Line, Options};
use crate::names::{DeclaredNames, NameTables};
use crate::text::copy_of;
use std::alloc::{AllocError, Global};
use target_base::{Boxed, Effect, List, OpcodeDesc, OpcodeDescs};
use word_set::WordSet;

/// The opcodes that belong to every target.
static THE_FIVE: [(&str, Effect); 5] = [
    ("COPY", Effect::Copy),
    ("PHI", Effect::Phi),
    ("IMPLICIT_DEF", Effect::ImplicitDef),
    ("REG_SEQUENCE", Effect::RegSequence),
    ("INSERT_SUBREG", Effect::InsertSubreg),
];

fn without_roles(alloc: Global, name: &[u8], effect: Effect) -> Result<OpcodeDesc, AllocError>
    ensures { IfOk result (λ o. o ≡ without_roles name.now effect) }
{
    Ok(OpcodeDesc {
        name: copy_of(alloc, name)?,
        effect,
        roles: List::new(alloc),
    })
}

/// Opcodes without roles.
fn opcodes_of(alloc: Global, rows: &[(&str, Effect)]) -> Result<OpcodeDescs, AllocError>
    ensures { IfOk result (λ made. made ≡ map opcode_row rows.now) }
{
    let mut made = List::new(alloc);
    for row in rows {
        made.push(without_roles(alloc, row.0.as_bytes(), row.1)?)?;
    }
    Ok(made)
}

/// Nothing is opted in.
fn no_options(alloc: Global) -> Options
    ensures { result ≡ no_options }
{
    Options {
        offsets: false,
        pool: false,
        noreg: false,
        open_blocks: false,
        flags: WordSet::new(alloc),
    }
}

/// The draft before the first line.
#[tactic(auto, unfolding(crate::specs::Drafts::empty_draft))]
pub(crate) fn empty_draft(alloc: Global) -> Result<Draft, AllocError>
    ensures { IfOk result (λ d. d ≡ empty_draft) }
{
    let opcodes = opcodes_of(alloc, &THE_FIVE)?;
    Ok(Draft {
        header: None,
        units: List::new(alloc),
        regs: List::new(alloc),
        reserved: List::new(alloc),
        indexes: List::new(alloc),
        classes: List::new(alloc),
        masks: List::new(alloc),
        opcodes,
        options: no_options(alloc),
    })
}

/// The distinct names of these opcodes.
fn names_in(alloc: Global, rows: &[(&str, Effect)]) -> Result<DeclaredNames, AllocError>
    requires { length rows.now < 65535 }
    ensures { IfOk result (λ names. names ≡ fold with_name [] (map name_in rows.now)) }
{
    let mut names = DeclaredNames::new(alloc);
    for row in rows {
        names.add(alloc, row.0.as_bytes())?;
    }
    Ok(names)
}

/// The names before the first line.
#[tactic(auto, unfolding(crate::specs::Drafts::empty_draft))]
pub(crate) fn first_names(alloc: Global) -> Result<NameTables, AllocError>
    ensures { IfOk result (λ names. names ≡ names_of empty_draft) }
{
    let opcodes = names_in(alloc, &THE_FIVE)?;
    Ok(NameTables {
        units: DeclaredNames::new(alloc),
        regs: DeclaredNames::new(alloc),
        indexes: DeclaredNames::new(alloc),
        classes: DeclaredNames::new(alloc),
        masks: DeclaredNames::new(alloc),
        opcodes,
    })
}

/// The draft with what the line adds.
pub(crate) fn add_to_draft(
    alloc: Global,
    draft: Boxed<Draft>,
    line: Line,
) -> Result<Boxed<Draft>, AllocError>
    ensures { IfOk result (λ d. d ≡ added draft line) }
{
    let mut d = draft;
    d.get_mut().add(alloc, line)?;
    Ok(d)
}

/// The names with the one that the line declares.
pub(crate) fn note_name(
    alloc: Global,
    names: Boxed<NameTables>,
    line: &Line,
) -> Result<Boxed<NameTables>, AllocError>
    requires new { IsTrue (is_new names line.now) }
    requires room { AreFew names }
    ensures { IfOk result (λ made. made ≡ noted names line.now) }
{
    let mut n = names;
    n.get_mut().note(alloc, line)?;
    Ok(n)
}
