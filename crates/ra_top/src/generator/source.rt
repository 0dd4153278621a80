//! The numbers that a generated function is made of.

ghost use Rattle.std.specs.Prelude.{◌≡◌, ◌<◌};
ghost use Rattle.ra_top.specs.Generator.Text.{next, drawn, numbers, behind_instr, jump, behind_jump};

/// The number of virtual registers.
pub(crate) const REGISTERS: u64 = 24;

/// The number of blocks between the first and the last.
pub(crate) const BLOCKS: u64 = 400;

/// The number of kinds of instructions.
const KINDS: u64 = 6;

/// The numbers of an instruction.
#[derive(Clone, Copy)]
pub(crate) struct InstrNumbers {
    /// The first register that it reads, or its number.
    pub(crate) a: u64,
    /// The second register that it reads.
    pub(crate) c: u64,
    /// The register that it writes.
    pub(crate) d: u64,
    /// Which instruction it is.
    pub(crate) kind: u64,
}

/// The numbers of a comparison and of the jump that it decides.
#[derive(Clone, Copy)]
pub(crate) struct Jump {
    /// The first register that is compared.
    pub(crate) a: u64,
    /// The second one.
    pub(crate) c: u64,
    /// The block that the jump leads to.
    pub(crate) to: u64,
}

/// A source of numbers: x becomes (x * 1103515245 + 12345) mod 2^31, and x / 65536 is drawn from.
#[derive(Clone, Copy)]
pub(crate) struct NumberSource {
    /// The number that it has come to.
    pub(crate) x: u64,
}

impl NumberSource {
    /// Moves on. The remainder is taken first, so that the product is small.
    fn advance(&mut self)
        ensures { self.new.x ≡ next self.old.x }
    {
        self.x = (self.x % (1 << 31) * 1_103_515_245 + 12_345) % (1 << 31);
    }

    /// Draws a number below a bound.
    pub(crate) fn draw(&mut self, bound: u64) -> u64
        requires { 0 < bound }
        ensures { (result ≡ drawn (next self.old.x) bound) × (self.new.x ≡ next self.old.x) }
    {
        self.advance();
        self.x / 65_536 % bound
    }

    /// Draws the numbers of an instruction.
    pub(crate) fn instr(&mut self) -> InstrNumbers
        ensures { (result ≡ numbers self.old.x) × (self.new.x ≡ behind_instr self.old.x) }
    {
        let a = self.draw(REGISTERS);
        let c = self.draw(REGISTERS);
        let d = self.draw(REGISTERS);
        let kind = self.draw(KINDS);
        InstrNumbers { a, c, d, kind }
    }

    /// Draws the numbers of a comparison and a jump.
    pub(crate) fn jump(&mut self) -> Jump
        ensures { (result ≡ jump self.old.x) × (self.new.x ≡ behind_jump self.old.x) }
    {
        let a = self.draw(REGISTERS);
        let c = self.draw(REGISTERS);
        let to = self.draw(BLOCKS + 1) + 1;
        Jump { a, c, to }
    }
}
