//! The target that the lines so far make.

ghost use Rattle.std.specs.Prelude.{◌≡◌, OnOk, fold};
ghost use Rattle.target_desc.specs.Adding.{with_form, with_flags, added};

use crate::raw::{Header, TextForm};
use std::alloc::{AllocError, Global};
use target_base::{
    Bytes, ClassDesc, ClassDescs, IndexDesc, IndexDescs, List, MaskDesc, MaskDescs, OpcodeDesc,
    OpcodeDescs, RegDesc, RegDescs, Regs, UnitDesc, UnitDescs, Words,
};
use word_set::WordSet;

/// What a line declares, its names looked up.
#[derive(Drop)]
pub(crate) enum Line {
    /// The target's name and version.
    Target(Header),
    /// A unit.
    Unit(UnitDesc),
    /// A register.
    Reg(RegDesc),
    /// Registers that are reserved.
    Reserved(Regs),
    /// A subregister index.
    Index(IndexDesc),
    /// A class.
    Class(ClassDesc),
    /// A call mask.
    Mask(MaskDesc),
    /// An opcode.
    Opcode(OpcodeDesc),
    /// Forms of text that are opted in.
    Forms(List<TextForm>),
    /// Words of `target-flags` that are opted in.
    Flags(Words),
}

/// What the lines so far opt in.
#[derive(Drop)]
pub(crate) struct Options {
    /// Symbols with an offset.
    pub(crate) offsets: bool,
    /// Entries of the constant pool.
    pub(crate) pool: bool,
    /// `$noreg` as an explicit operand.
    pub(crate) noreg: bool,
    /// Blocks without successors whose end control doesn't reach.
    pub(crate) open_blocks: bool,
    /// The words of `target-flags`.
    pub(crate) flags: WordSet,
}

impl Options {
    /// Opts in a form of text.
    fn add_form(&mut self, form: TextForm)
        ensures { self.new ≡ with_form self.old form }
    {
        match form {
            TextForm::Offset => self.offsets = true,
            TextForm::Pool => self.pool = true,
            TextForm::Noreg => self.noreg = true,
            TextForm::Open => self.open_blocks = true,
        }
    }

    /// Opts in forms of text.
    fn add_forms(&mut self, forms: &[TextForm])
        ensures { self.new ≡ fold with_form self.old forms.now }
    {
        for form in forms {
            self.add_form(*form);
        }
    }

    /// Opts in words of `target-flags`, each once.
    fn add_flags(&mut self, alloc: Global, words: &[Bytes]) -> Result<(), AllocError>
        ensures { OnOk result (self.new ≡ with_flags self.old words.now) }
    {
        for word in words {
            self.flags.add(alloc, word.as_slice())?;
        }
        Ok(())
    }
}

/// The target that the lines so far make.
#[derive(Drop)]
pub(crate) struct Draft {
    /// Its name and version, once a `target` line came.
    pub(crate) header: Option<Header>,
    /// Its units.
    pub(crate) units: UnitDescs,
    /// Its registers.
    pub(crate) regs: RegDescs,
    /// The registers that `reserved` lines name, in the order of these lines.
    pub(crate) reserved: Regs,
    /// Its subregister indexes.
    pub(crate) indexes: IndexDescs,
    /// Its classes.
    pub(crate) classes: ClassDescs,
    /// Its call masks.
    pub(crate) masks: MaskDescs,
    /// Its opcodes, the five of every target first.
    pub(crate) opcodes: OpcodeDescs,
    /// What it opts in.
    pub(crate) options: Options,
}

impl Draft {
    /// Puts in what the line adds.
    #[tactic(auto, unfolding(crate::specs::Adding::added))]
    pub(crate) fn add(&mut self, alloc: Global, line: Line) -> Result<(), AllocError>
        ensures { OnOk result (self.new ≡ added self.old line) }
    {
        match line {
            Line::Target(header) => {
                self.header = Some(header);
                Ok(())
            }
            Line::Unit(unit) => self.units.push(unit),
            Line::Reg(reg) => self.regs.push(reg),
            Line::Reserved(regs) => self.reserved.extend(regs.as_slice()),
            Line::Index(index) => self.indexes.push(index),
            Line::Class(class) => self.classes.push(class),
            Line::Mask(mask) => self.masks.push(mask),
            Line::Opcode(opcode) => self.opcodes.push(opcode),
            Line::Forms(forms) => {
                self.options.add_forms(forms.as_slice());
                Ok(())
            }
            Line::Flags(words) => self.options.add_flags(alloc, words.as_slice()),
        }
    }
}
