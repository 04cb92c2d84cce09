// What is so of every row of the table.

ghost use Rattle.instr_table.specs.Laws.{ChargesAsListed, TakesWhatItCharges, AssignsToOwn, HandsOnWhatItHas, ShownStays, ChangesKeepShown};
ghost use Rattle.instr_table.specs.ByState.{ChargesByState};
ghost use Rattle.instr_table.specs.Authority.{EachKeepsAuthority};
ghost use Rattle.instr_table.specs.Making.{KeepsCodeOut, MakesWhatItNames};
ghost use Rattle.instr_table.specs.Plain.{PlainRowsLeaveSponsors};

/// Each row charges what `op_charge` says of its operation, where that says something.
pub fn charges_as_listed()
    ensures { ChargesAsListed }
{}

/// Where `op_charge` says nothing, the state says how many quads a row charges, and no event. `dict set` costs i + 2 where the first entry
/// with the key stands at place i, counted from 0, and 2 where there is none; `dict del` costs i + 1, or 1. `deque pop` and `deque pull`
/// cost 3, and one more for each item that is turned round. `sponsor new` costs 3, or 1 where there are 65,536 sponsors.
pub fn charges_by_state()
    ensures { ChargesByState }
{}

/// No row takes more quads than it charges, or sends more messages than it charges events.
pub fn takes_what_it_charges()
    ensures { TakesWhatItCharges }
{}

/// `actor assign` changes only an actor that its own event created.
pub fn assigns_to_own()
    ensures { AssignsToOwn }
{}

/// What a row pushes, goes on at, puts into new cells, sends, or gives to actors and sponsors, is a word that its event had at it, a word of
/// a cell that such a word names, or the word of a cell, actor or sponsor that the row made.
pub fn hands_on_what_it_has()
    ensures { HandsOnWhatItHas }
{}

/// After an instruction an event gets at no actor or sponsor but those that it got at before and those that the instruction made. This rests
/// on that each RAM word names a quad that is taken, which each instruction keeps.
pub fn keeps_authority()
    ensures { EachKeepsAuthority }
{}

/// What a word shows, the words of a cell, an actor or a sponsor, it shows after each instruction.
pub fn shown_stays()
    ensures { ShownStays }
{}

/// What a word shows, it shows after a quad was changed into one with the same words, where it is readable, and of the same kind.
pub fn changes_keep_shown()
    ensures { ChangesKeepShown }
{}

/// What an instruction makes goes by what it does. A message, a signal and a created actor are one new quad each, a sponsor is two, and the
/// word that the row gives it is that of the quad taken next. Whatever else it makes is a readable cell: a pair, an entry of a dictionary, a
/// deque, or a cell of a type that `quad` makes.
pub fn makes_what_it_names()
    ensures { MakesWhatItNames }
{}

/// No instruction makes a RAM cell that spells an operation, on the stack or elsewhere: where none stood in RAM, none stands there after it.
pub fn keeps_code_out_of_ram()
    ensures { KeepsCodeOut }
{}

/// An instruction that is none of the five on sponsors has no effect on sponsors: it makes none, grants nothing and takes nothing back, and
/// starts and stops none. A message that it sends is under the sponsor that pays for its event, or under a word that names a sponsor.
pub fn plain_rows_leave_sponsors()
    ensures { PlainRowsLeaveSponsors }
{}
