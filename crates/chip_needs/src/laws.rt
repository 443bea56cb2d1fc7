//! Laws of the calls that the chip makes. Each function does nothing; its contract is the law.

ghost use Rattle.chip_needs.specs.Attention.{AttentionIsTold};
ghost use Rattle.chip_needs.specs.CommandNexus.{CommandsFindNexus};
ghost use Rattle.chip_needs.specs.CommandSteps.{CommandStepsJoin};
ghost use Rattle.chip_needs.specs.Greeting.{GreetingsAreTold, SelectionsAreGreeted};
ghost use Rattle.chip_needs.specs.MessageSteps.{MessageStepsJoin};
ghost use Rattle.chip_needs.specs.Ordinary.{AcksFind, OrdinaryStepsJoin, PointersStand};
ghost use Rattle.chip_needs.specs.OwnMoves.{OwnMovesStand};
ghost use Rattle.chip_needs.specs.Sending.{RogueStepsJoin};
ghost use Rattle.chip_needs.specs.ToldStatus.{StatusesAreTold};
ghost use Rattle.chip_needs.specs.WaitingTickets.{WaitingTicketsStay};

/// In every world of every run in which the chip runs, ATN is asserted only behind a selection, up to the message, and behind SET ATN
/// of an abort.
pub fn attention_is_told()
    ensures { AttentionIsTold }
{}

/// There, but behind SET ATN of an abort, the connected target was selected and heard nothing yet, or units are connected that break the
/// rules, or nothing is.
pub fn greetings_are_told()
    ensures { GreetingsAreTold }
{}

/// After every list of moves the ticket of a task that shows COMMAND COMPLETE has the status that was told.
pub fn statuses_are_told()
    ensures { StatusesAreTold }
{}

/// Where both pointers of a ticket stand where its connected task does, an acknowledgement finds of the tickets what it asks.
pub fn acks_find()
    ensures { AcksFind }
{}

/// A joined run is joined with pointers that stand so: nothing else of the tickets changes, and no history.
pub fn pointers_stand()
    ensures { PointersStand }
{}

/// A step of the chip leaves a run joined that was so, but at the addresses at which a message, a command or a byte of DATA OUT goes to a
/// target.
pub fn ordinary_steps_join()
    ensures { OrdinaryStepsJoin }
{}

/// So does a step at any address while no target is connected that keeps the rules.
pub fn rogue_steps_join()
    ensures { RogueStepsJoin }
{}

/// Behind a selection, up to the message, the connected target was selected and heard nothing yet, with ATN asserted or not, or units are
/// connected that break the rules, or nothing is.
pub fn selections_are_greeted()
    ensures { SelectionsAreGreeted }
{}

/// A step of the chip that sends the message behind a selection leaves a run joined that was so, whatever is connected.
pub fn message_steps_join()
    ensures { MessageStepsJoin }
{}

/// Behind the message, where the command goes out, the connected target takes it for the nexus of the ticket at the chip, and has none of its
/// bytes yet; or it has the message still, or units are connected that break the rules, or nothing is.
pub fn commands_find_nexus()
    ensures { CommandsFindNexus }
{}

/// A step of the chip that sends the command leaves a run joined that was so, where the ticket whose block is at DSA is selected or waits
/// for it.
pub fn command_steps_join()
    ensures { CommandStepsJoin }
{}

/// A joined run is joined with the tickets after the chip's own moves too: no call of the bus makes them, and no history tells of them.
pub fn own_moves_stand()
    ensures { OwnMovesStand }
{}

/// A ticket that waits to be selected waits over every move but a step of its own, resets among them.
pub fn waiting_tickets_stay()
    ensures { WaitingTicketsStay }
{}
