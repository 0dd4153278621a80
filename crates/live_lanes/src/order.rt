//! The order of a function's instructions, and where each of them and each block stands.

ghost use Rattle.std.specs.Prelude.{◌≡◌, ◌<◌, ℕ, true, [], ◌∷◌, ◌++◌, length, slice_get, slice_index, Some, IfOk, OnOk, OnErr, IfSome};
ghost use Rattle.std.specs.Ordering.{nat_cmp};
ghost use Rattle.std.specs.BTreeMap.{get};
ghost use Rattle.slot_index.specs.Order.{ids, Has, IsNumbered, put_after};
ghost use Rattle.slot_index.specs.Renewed.{low_end};
ghost use Rattle.mir_meaning.specs.Points.{all_points};
ghost use Rattle.mir_meaning.specs.Paths.{has};
ghost use Rattle.live_lanes.specs.Ordered.{ids_of, all_ids, last_id, place_of, placed, AreSingle, AreHomes, AreRising, Settles};

use mir_func::{Block, Func, Instr};
use slot_index::Slots;
use std::alloc::{AllocError, Global};
use std::collections::BTreeMap;
use target_base::Boxed;

/// The order of instructions, and the positions of blocks in the layout.
#[derive(Drop)]
pub struct Order {
    /// The ids of the instructions in layout order.
    pub slots: Slots,
    /// The position of each instruction's block, by its id.
    pub block_of: Vec<u32>,
    /// The first position of each block number.
    pub positions: BTreeMap<u32, u32>,
}

impl Order {
    /// No instructions and no blocks, with room for ids below a number.
    fn new(alloc: Global, next_id: u32) -> Result<Order, AllocError>
        ensures positions { IfOk result (λ o. (n : ℕ) → get nat_cmp o.positions n ≡ place_of n []) }
        ensures ids { IfOk result (λ o. ids o.slots ≡ []) }
        ensures numbered { IfOk result (λ o. IsNumbered o.slots) }
        ensures room { IfOk result (λ o. length o.block_of.items ≡ next_id) }
    {
        let mut block_of = Vec::new(alloc);
        block_of.resize(next_id as usize, 0)?;
        Ok(Order {
            slots: Slots::new(alloc),
            block_of,
            positions: BTreeMap::new(alloc),
        })
    }

    /// The order of a function's instructions, where its blocks are as few as their positions allow.
    pub fn of(alloc: Global, func: &Func) -> Result<Order, AllocError>
        ensures positions { IfOk result (λ o. (n : ℕ) → get nat_cmp o.positions n ≡ place_of n func.now.blocks) }
        ensures ids { IfOk result (λ o. ids o.slots ≡ all_ids func.now.blocks) }
        ensures small { IfOk result (λ o. low_end (last_id (ids o.slots)) o.slots < 18446744073709551616) }
        ensures short { IfOk result (λ o. (id : ℕ) → has id (all_ids func.now.blocks) ≡ true → id < 4294967296) }
        ensures single { IfOk result (λ o. AreSingle (all_ids func.now.blocks)) }
        ensures numbered { IfOk result (λ o. IsNumbered o.slots) }
        ensures homes { IfOk result (λ o. AreHomes func.now.blocks o.block_of.items) }
        ensures few { IfOk result (λ o. length (all_points func.now) < 18446744073709551616) }
    {
        let blocks = func.blocks.as_slice();
        let Ok(count) = u32::try_from(blocks.len()) else {
            return Err(AllocError);
        };
        let mut order = Order::new(alloc, func.next_id)?;
        let mut last = None;
        'blocks: for position in 0..count {
            let block = &blocks[position as usize];
            order.add_block(block, position)?;
            last = order.add_instrs(block.instrs.as_slice(), position, last)?;
        }
        let _highest = order.number(last);
        Ok(order)
    }

    /// The number of an instruction, or 0 where none is given.
    fn number(&self, id: Option<u32>) -> u64
        ensures { result ≡ low_end id self.now.slots }
    {
        match id {
            Some(id) => self.slots.number(id),
            None => 0,
        }
    }

    /// Notes the position of a block, where no block before it has its number.
    fn add_block(&mut self, block: &Block, position: u32) -> Result<(), AllocError>
        ensures positions { OnOk result ((n : ℕ) → get nat_cmp self.new.positions n ≡ placed (get nat_cmp self.old.positions n) block.now.number n position) }
        ensures slots { self.new.slots ≡ self.old.slots }
        ensures homes { self.new.block_of ≡ self.old.block_of }
    {
        if !self.positions.contains_key(&block.number) {
            self.positions.insert(block.number, position)?;
        }
        Ok(())
    }

    /// Adds the instructions of a block behind the last one, and answers what is the last one then.
    fn add_instrs(
        &mut self,
        instrs: &[Boxed<Instr>],
        position: u32,
        last: Option<u32>,
    ) -> Result<Option<u32>, AllocError>
        ensures positions { self.new.positions ≡ self.old.positions }
        ensures ids { IfOk result (λ after. AreSingle (ids self.old.slots ++ ids_of instrs.now) → last ≡ last_id (ids self.old.slots)
            → (ids self.new.slots ≡ ids self.old.slots ++ ids_of instrs.now) × (after ≡ last_id (ids self.new.slots))) }
        ensures numbered { IsNumbered self.old.slots → IsNumbered self.new.slots }
        ensures homes { IfOk result (λ after. AreSingle (ids self.old.slots ++ ids_of instrs.now) → last ≡ last_id (ids self.old.slots)
            → Settles self.old.block_of.items self.new.block_of.items (ids_of instrs.now) position) }
    {
        let mut after = last;
        'instrs: for instr in instrs {
            let instr = instr.get();
            self.add_instr(instr.id, position, after)?;
            after = Some(instr.id);
        }
        Ok(after)
    }

    /// Adds an instruction behind another or first. An id that is there already isn't added.
    pub fn add_instr(
        &mut self,
        id: u32,
        position: u32,
        after: Option<u32>,
    ) -> Result<(), AllocError>
        ensures positions { self.new.positions ≡ self.old.positions }
        ensures ids { OnOk result ((Has self.old.slots id → ⊥) → IfSome after (Has self.old.slots) → ids self.new.slots ≡ put_after after id (ids self.old.slots)) }
        ensures numbered { IsNumbered self.old.slots → IsNumbered self.new.slots }
        ensures homes { OnOk result ((Has self.old.slots id → ⊥) → Settles self.old.block_of.items self.new.block_of.items (id ∷ []) position) }
        ensures err { OnErr result ((self.new.slots ≡ self.old.slots) × (self.new.block_of ≡ self.old.block_of)) }
    {
        if self.slots.is_present(id) {
            return Ok(());
        }
        self.put(id, after)?;
        self.settle(id, position);
        Ok(())
    }

    /// Puts an id behind another, where that one is there, or first.
    fn put(&mut self, id: u32, after: Option<u32>) -> Result<(), AllocError>
        requires { Has self.old.slots id → ⊥ }
        ensures positions { self.new.positions ≡ self.old.positions }
        ensures homes { self.new.block_of ≡ self.old.block_of }
        ensures ids { OnOk result (IfSome after (Has self.old.slots) → ids self.new.slots ≡ put_after after id (ids self.old.slots)) }
        ensures numbered { IsNumbered self.old.slots → IsNumbered self.new.slots }
        ensures err { OnErr result (self.new.slots ≡ self.old.slots) }
    {
        match after {
            None => self.slots.insert_after(None, id)?,
            Some(last) => {
                if self.slots.is_present(last) {
                    self.slots.insert_after(Some(last), id)?;
                }
            }
        }
        Ok(())
    }

    /// Notes the position of an instruction's block, where there is room for the id.
    fn settle(&mut self, id: u32, position: u32)
        ensures positions { self.new.positions ≡ self.old.positions }
        ensures slots { self.new.slots ≡ self.old.slots }
        ensures homes { Settles self.old.block_of.items self.new.block_of.items (id ∷ []) position }
    {
        let at = id as usize;
        if at < self.block_of.len() {
            self.block_of[at] = position;
        }
    }

    /// The position of the block of that number; of several blocks, that of the first.
    pub fn position(&self, number: u32) -> Option<u32>
        ensures { result ≡ get nat_cmp self.now.positions number }
    {
        self.positions.get(&number).copied()
    }

    /// The position of the block of an instruction.
    pub fn block_of(&self, id: u32) -> u32
        ensures { result ≡ slice_index self.now.block_of.items id }
    {
        self.block_of.get(id as usize).copied().unwrap_or(0)
    }

    /// The place of an instruction among those of its block.
    pub fn place(&self, instrs: &[Boxed<Instr>], id: u32) -> usize
        ensures { AreRising self.now.slots 0 (ids_of instrs.now) → (j : ℕ) (i : Instr) → slice_get instrs.now j ≡ Some i → i.id ≡ id → result ≡ j }
    {
        let at = self.slots.number(id);
        instrs.partition_point(|i| self.slots.number(i.get().id) < at)
    }
}
