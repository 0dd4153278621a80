//! Laws of spills: a function in which a range was spilled keeps the rules that liveness and edits rest on.
//!
//! Each is the contract of a function, so that a check proves it. Begin with `lowered_law`, which is of one spill; `spills_law` is
//! of many behind lowering. `moves_law` and those behind it up to `stays_law` are of the instructions that a spill makes.
//!
//! The laws from `bystanders_law` on are of what a spill does: where lanes are found after it, place by place. `spill_places_law`
//! is of each place, `assembled_law` says that a function whose places all stand so does what it did, and `spill_refines_law`,
//! that a function in which a range was spilled does what it did; `new_slot_law`, the last, is of a slot that no instruction names.
#![tactic(auto)]

ghost use Rattle.spill_laws.specs.Laws.{BesidesKeepRules, CopiesKeepRules, MovesKeepRules, PassesKeepRules, RepeatsKeepRules, SeatsHaveClasses, SpillGivesClasses, SpillKeepsBlockRules, SpillKeepsClasses, SpillKeepsIds, SpillKeepsLowered, StaysKeepRules, TiniesKeepRules, UndefinedKeepRules};
ghost use Rattle.spill_laws.specs.Named.{FormHasPlainUndefs, LoweredHasFixedUndefs, SpillKeepsNamed};
ghost use Rattle.spill_laws.specs.Turns.{LoweredSpillsKeepForm};
ghost use Rattle.spill_laws.specs.Refined.{SitesApart};
ghost use Rattle.spill_laws.specs.Seats.{ConstantSeatsStand, CountedSeatsStand, LoadsHold, ReadersHold, StrangePlaces, TinyMoves, UnservedStored, WaysLoad};
ghost use Rattle.spill_laws.specs.SpillRefines.{SpillRefines, SpillToNewSlotRefines};
ghost use Rattle.spill_laws.specs.SpillPlaces.{SpillPlacesStand};
ghost use Rattle.spill_laws.specs.TinyPlaces.{ItemsStay, TerminatorPlacesStand, TinyPlacesStand};
ghost use Rattle.spill_laws.specs.Standing.{AllStandRefine, BystandersStand, CopiesStand, EndsStand, IdsChangeNothing, NeedlessStand, PlacesJoin, RepeatsStand, SlotMovesStand, StartsStand, StrangersPass, UndefinedStand};

/// New instructions have ids of their own.
pub fn ids_law()
    ensures { SpillKeepsIds }
{}

/// Blocks end in their terminators and lead to their successors, as they did.
pub fn blocks_law()
    ensures { SpillKeepsBlockRules }
{}

/// Ranges keep their classes, and new ones have classes of the target.
pub fn classes_law()
    ensures { SpillKeepsClasses }
{}

/// Each further range has a class.
pub fn further_law()
    ensures { SpillGivesClasses }
{}

/// A store to a slot, or a reload, of a register that lies in its class keeps the rules on its operands.
pub fn moves_law()
    ensures { MovesKeepRules }
{}

/// So does a constant or an address that is repeated for a register of its class,
pub fn repeats_law()
    ensures { RepeatsKeepRules }
{}

/// what stands in place of a copy between the range and another register,
pub fn copies_law()
    ensures { CopiesKeepRules }
{}

/// and the store in place of an IMPLICIT_DEF of the range.
pub fn undefined_law()
    ensures { UndefinedKeepRules }
{}

/// So do the reload and the store of a tiny through which lanes go from slot to slot.
pub fn passes_law()
    ensures { PassesKeepRules }
{}

/// A register that an instruction names has an operand class, so that a tiny can take its place.
pub fn seats_law()
    ensures { SeatsHaveClasses }
{}

/// What stands before and behind a place with tinies keeps the rules: reloads, repeated constants and stores.
pub fn besides_law()
    ensures { BesidesKeepRules }
{}

/// So does an instruction with tinies in place of the range.
pub fn tinies_law()
    ensures { TiniesKeepRules }
{}

/// An instruction that stays keeps the rules.
pub fn stays_law()
    ensures { StaysKeepRules }
{}

/// So the function after a spill is in the form in which ranges are spilled, and its instructions are in lowered form.
pub fn lowered_law()
    ensures { SpillKeepsLowered }
{}

/// Behind lowering no `undef` use names a virtual register but tied ones.
pub fn undefs_law()
    ensures { LoweredHasFixedUndefs }
{}

/// Where no `undef` use names a virtual register but tied ones, no instruction behind a spill names a range in `undef` uses
/// alone.
pub fn named_law()
    ensures { SpillKeepsNamed }
{}

/// No instruction in lowered form has an `undef` definition, and none is a copy of an `undef` source.
pub fn plain_law()
    ensures { FormHasPlainUndefs }
{}

/// A valid source, lowered and then with any number of spills, is in the form in which ranges are spilled.
pub fn spills_law()
    ensures { LoweredSpillsKeepForm }
{}

/// An instruction that has nothing to do with the range stays as it is: where lanes are found before it they are found behind it.
pub fn bystanders_law()
    ensures { BystandersStand }
{}

/// A copy that names the range stands as a store or a reload, as both through a tiny, or as nothing.
pub fn copies_stand_law()
    ensures { CopiesStand }
{}

/// An IMPLICIT_DEF of the range stands as a store of an `undef` register, or as nothing.
pub fn undefined_stand_law()
    ensures { UndefinedStand }
{}

/// A store of the range to a slot, or a reload of it, stands as both through a tiny, or as nothing.
pub fn slot_moves_stand_law()
    ensures { SlotMovesStand }
{}

/// A constant or an address that isn't needed any more stands as nothing.
pub fn needless_stand_law()
    ensures { NeedlessStand }
{}

/// A copy from the range to another register stands as the constant that is repeated for it.
pub fn repeats_stand_law()
    ensures { RepeatsStand }
{}

/// A terminator that reads tinies loaded before it leaves them as they are, behind it and on each way.
pub fn readers_law()
    ensures { ReadersHold }
{}

/// What is loaded to tinies before a place is held there.
pub fn loads_law()
    ensures { LoadsHold }
{}

/// A counted instruction with tinies in place of the range stands between what is loaded before it and what is stored behind it.
pub fn counted_seats_law()
    ensures { CountedSeatsStand }
{}

/// An instruction that names the range nowhere is a bystander.
pub fn strangers_law()
    ensures { StrangersPass }
{}

/// Where the range's slot is apart from it, each instruction is a site.
pub fn sites_law()
    ensures { SitesApart }
{}

/// A constant or an address with a tiny in place of the range stands, with a store where the range is live behind.
pub fn constant_seats_law()
    ensures { ConstantSeatsStand }
{}

/// At a block's end lanes are found where they are at the starts of the blocks that it leads to.
pub fn ends_law()
    ensures { EndsStand }
{}

/// At the start of a run each lane holds what it holds after the spill.
pub fn starts_law()
    ensures { StartsStand }
{}

/// Where what stands in place of each block's instructions keeps lanes where they are found, the function after a spill does what
/// the function did.
pub fn assembled_law()
    ensures { AllStandRefine }
{}

/// Places of a block stand together where each of them does.
pub fn places_join_law()
    ensures { PlacesJoin }
{}

/// New ids change no item.
pub fn new_ids_law()
    ensures { IdsChangeNothing }
{}

/// What gives a tiny the value that is read is a load of its lanes, and these stand as the range's do.
pub fn ways_law()
    ensures { WaysLoad }
{}

/// A store of a tiny to the range's slot is a save, and a reload of one a load.
pub fn tiny_moves_law()
    ensures { TinyMoves }
{}

/// No definition that reaches a reading for which nothing serves is gone.
pub fn unserved_law()
    ensures { UnservedStored }
{}

/// An instruction that names the range nowhere gets no tinies, and stays as it is.
pub fn strange_places_law()
    ensures { StrangePlaces }
{}

/// An instruction that stays is the item that it was.
pub fn items_stay_law()
    ensures { ItemsStay }
{}

/// An instruction that is no terminator stands with its tinies, between what is loaded before it and what is stored behind it.
pub fn tiny_places_law()
    ensures { TinyPlacesStand }
{}

/// So do the terminators of a block.
pub fn terminator_places_law()
    ensures { TerminatorPlacesStand }
{}

/// So each place of the function stands, whatever becomes of it.
pub fn spill_places_law()
    ensures { SpillPlacesStand }
{}

/// Where the range's slot is apart from it, the function after a spill does what the function did.
pub fn spill_refines_law()
    ensures { SpillRefines }
{}

/// So it does where no instruction names the slot.
pub fn new_slot_law()
    ensures { SpillToNewSlotRefines }
{}
